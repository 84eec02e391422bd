// The five numbers that a preset begins with.
ghost use Rattle.std.specs.Prelude.{◌≡◌};
ghost use Rattle.fault.specs.Limits.{most_window, most_width};
ghost use Rattle.preset.specs.Presets.{item_count};
ghost use Rattle.preset.specs.Sizes.{Sized};

use crate::input::Unread;
use crate::item_limits::ItemLimits;
use charge::ChargeKind;
use fault::limits::{LEAST_LETTERS, MOST_LETTERS, MOST_WIDTH, MOST_WINDOW, word_count};
use fault::{Fault, Stop};

/// The five numbers that a preset begins with. They are wide enough to be wrong: whoever takes a header checks it. C
/// has the same struct.
#[derive(Clone, Copy, PartialEq, Eq, Debug)]
#[repr(C)]
pub struct Header {
    /// The number of the kind of charge: 0 voices, 1 pitch, 2 channels, 3 both, 4 cents.
    pub kind: u64,
    /// The alphabet size, 2 to 8 letters.
    pub q: u64,
    /// The rule's window, 1 to 12 cells.
    pub n: u64,
    /// The rule's reach: the place of the cell itself in its window, from 0 to n - 1.
    pub l: u64,
    /// The density's width, 1 to 12 cells.
    pub k: u64,
}

impl Header {
    /// How many letters the rule has: q^n, or `None` where the alphabet size or the window is out of range or these are
    /// more than 4,096.
    pub fn letter_count(self) -> Option<usize>
        ensures { result ≡ item_count most_window self.q self.n }
    {
        item_count(MOST_WINDOW, self.q, self.n)
    }

    /// How many entries the density has: q^k, or `None` where the alphabet size or the width is out of range or these
    /// are more than 4,096.
    pub fn entry_count(self) -> Option<usize>
        ensures { result ≡ item_count most_width self.q self.k }
    {
        item_count(MOST_WIDTH, self.q, self.k)
    }
}

// How many words of m letters there are, where m is from 1 to `most`.
fn item_count(most: u64, q: u64, m: u64) -> Option<usize>
    ensures { result ≡ item_count most q m }
{
    if m < 1 || m > most {
        return None;
    }
    word_count(q, m)
}

// A header that has passed, and the kind that it names.
#[derive(Clone, Copy)]
pub(crate) struct Head {
    pub kind: ChargeKind,
    pub header: Header,
    ghost sized: { Sized header },
}

impl Head {
    ghost use Rattle.std.specs.Prelude.{◌^◌, ◌≤◌};
    ghost use Rattle.fault.specs.Limits.{most_words};
    ghost use Rattle.preset.specs.Heads.{heads};
    ghost use Rattle.preset.specs.Inputs.{Reads};
    ghost use Rattle.preset.specs.Presets.{head_read};

    // Reads a header, each number in its range.
    pub(crate) fn read(input: &mut Unread<'_>) -> Result<Head, Fault>
        ensures { Reads input.old input.new (heads result) head_read }
    {
        let kind = input.kind()?;
        let q = input.field(LEAST_LETTERS, MOST_LETTERS + 1, Stop::BadAlphabet)?;
        let n = input.field(1, MOST_WINDOW + 1, Stop::BadWindow)?;
        let l = input.field(0, n, Stop::BadReach)?;
        let place = input.place();
        let k = input.field(1, MOST_WIDTH + 1, Stop::BadWidth)?;
        word_count(q, n + k - 1).ok_or(Stop::TooManyWords.at(place))?;
        let header = Header {
            kind: u64::from(kind),
            q,
            n,
            l,
            k,
        };
        Ok(Head { kind, header })
    }

    // What the letters and the entries after the header are held to.
    pub(crate) fn limits(self) -> ItemLimits
        ensures { (result.kind ≡ self.kind) × (result.q ≡ self.header.q) }
    {
        ItemLimits {
            kind: self.kind,
            q: self.header.q as u8,
        }
    }

    pub(crate) fn letter_count(self) -> usize
        ensures count { result ≡ self.header.q ^ self.header.n }
        ensures few { result ≤ most_words }
    {
        self.header.q.pow(self.header.n as u32) as usize
    }

    pub(crate) fn entry_count(self) -> usize
        ensures count { result ≡ self.header.q ^ self.header.k }
        ensures few { result ≤ most_words }
    {
        self.header.q.pow(self.header.k as u32) as usize
    }
}
