// What a refusal is: a stop code and the place that it speaks of. Assumes nothing.
#![tactic(auto)]

ghost use Rattle.std.specs.Prelude.{◌≡◌, Some, [], ◌∷◌};
ghost use Rattle.fault.specs.Answers.{plainly};
ghost use Rattle.fault.specs.Checks.{tested};
ghost use Rattle.fault.specs.Refusals.{code_of, reason_of, sentence};

use std::fmt;

pub mod limits;

/// Why a call is refused: one case for each stop code, in the order of their numbers. Where several fit, the lowest
/// is given; in reading a preset, the first number at fault decides.
#[derive(Clone, Copy, PartialEq, Eq, Debug)]
pub enum Stop {
    /// The bytes end inside or before a number that is due.
    CutShort = 1,
    /// A number is misspelt: it begins with a zero group, is longer than five bytes, or is too large.
    Misspelt = 2,
    /// The number of a kind of charge is above 4.
    UnknownKind = 3,
    /// The alphabet size q is not 2 to 8.
    BadAlphabet = 4,
    /// The window n of a rule is not 1 to 12.
    BadWindow = 5,
    /// The reach l of a rule is not below its window.
    BadReach = 6,
    /// The width k of a density is not 1 to 12.
    BadWidth = 7,
    /// Two parts that are put together have two alphabet sizes.
    AlphabetsDiffer = 8,
    /// A rule, a density or a label has more than 4,096 words.
    TooManyWords = 9,
    /// Bytes follow the last number of a whole preset.
    SurplusBytes = 10,
    /// A ring does not have 1 to 4,096 cells.
    BadLength = 11,
    /// A strip or a table is shorter than the call needs.
    ShortStrip = 12,
    /// A position is not below the ring's number of cells.
    BadPosition = 13,
    /// A letter is not below the alphabet size.
    BadLetter = 14,
    /// A charge may not be an entry of its kind.
    BadEntry = 15,
}

impl Stop {
    /// The number of the stop code, 1 to 15. A method, since a number alone would not say what it numbers.
    pub fn code(self) -> u8
        ensures { result ≡ code_of self }
    {
        self as u8
    }

    /// What the stop code says, in words, with no capital and no full stop.
    pub fn reason(self) -> &'static str
        ensures { result.now ≡ reason_of self }
    {
        match self {
            Stop::CutShort => "the bytes end where a number is due",
            Stop::Misspelt => "a number is misspelt",
            Stop::UnknownKind => "the kind of charge is above 4",
            Stop::BadAlphabet => "the alphabet size is not 2 to 8",
            Stop::BadWindow => "the window is not 1 to 12 letters",
            Stop::BadReach => "the reach is not below the window",
            Stop::BadWidth => "the width is not 1 to 12 letters",
            Stop::AlphabetsDiffer => "two parts differ in alphabet size",
            Stop::TooManyWords => "there are more than 4096 words",
            Stop::SurplusBytes => "bytes follow the end of the preset",
            Stop::BadLength => "the ring does not have 1 to 4096 cells",
            Stop::ShortStrip => "a strip is too short",
            Stop::BadPosition => "the position is not on the ring",
            Stop::BadLetter => "a letter is not below the alphabet size",
            Stop::BadEntry => "an entry is outside the range of its kind",
        }
    }

    /// The refusal with this stop code that speaks of a place.
    pub fn at(self, place: usize) -> Fault
        ensures { result ≡ record { stop = self; place = place } }
    {
        Fault { stop: self, place }
    }

    /// Passes a test, or is the refusal where it fails, at place 0.
    ///
    /// ```rust
    /// Stop::BadReach.unless(l < n)?;
    /// ```
    pub fn unless(self, test: bool) -> Result<(), Fault>
        ensures { plainly result ≡ tested ((test, self) ∷ []) }
    {
        if test { Ok(()) } else { Err(self.at(0)) }
    }
}

/// A refusal: the stop code, and the place of what is at fault. It is handed up unaltered from where it arises, and
/// the call that gives it has written nothing. As text it is a sentence with both.
#[derive(Clone, Copy, PartialEq, Eq, Debug)]
pub struct Fault {
    /// Why the call is refused.
    pub stop: Stop,
    /// In reading a preset, the index of the byte at which the number at fault begins, or of the first surplus byte.
    /// Of a letter or an entry, the index of the first that is at fault, and of a touch's letter the ring's number of
    /// cells. Else 0.
    pub place: usize,
}

impl fmt::Display for Fault {
    ghost output = { λ f. Some (sentence f) };

    fn fmt<W: fmt::Write>(&self, f: &mut fmt::Formatter<W>) -> fmt::Result {
        let code = self.stop.code();
        let place = self.place;
        write!(f, "Refused with code {code} at place {place}: ")?;
        let reason = self.stop.reason();
        write!(f, "{reason}.")
    }
}
