// The commands of a script.
ghost use Rattle.std.specs.Prelude.{◌≡◌, Some, IfOk, vec_items};
ghost use Rattle.std.specs.Option.{option_map};
ghost use Rattle.player.specs.Answers.{call_meant};
ghost use Rattle.automaton.specs.Shown.{digits};
ghost use Rattle.cli.specs.Commands.{command_meant, letters, command_text, verb_of, one_call};

use console::Named;
use player::Call;
use std::alloc::{AllocError, Global};
use std::fmt;

/// The letters of a ring as a script and the arguments have them, a digit each.
#[derive(Clone, Copy, PartialEq, Eq, Debug)]
pub struct RingDigits<'a> {
    /// The digits, as bytes of ASCII.
    pub text: &'a [u8],
}

/// What sort of command a line of a script is, by the word that it begins with.
#[derive(Clone, Copy, PartialEq, Eq, Debug)]
pub enum Verb {
    /// `open`.
    Open,
    /// `step`.
    Step,
    /// `touch`.
    Touch,
    /// `read`.
    Read,
    /// `arc`.
    Arc,
    /// `meters`.
    Meters,
    /// `close`.
    Close,
}

/// What a line of a script asks. Its text is a line that is read back as the same command. Sites are counted from 0.
#[derive(Clone, Copy, PartialEq, Eq, Debug)]
pub enum Command<'a> {
    /// `open RING`: opens a ring with these letters, or with none.
    Open(RingDigits<'a>),
    /// `step`: one step.
    Step,
    /// `step N`: so many steps, answered as one.
    Steps(usize),
    /// `touch SITE LETTER`: gives a cell another letter.
    Touch {
        /// The cell's site.
        site: usize,
        /// Its letter from now on.
        letter: usize,
    },
    /// `read SITE`: the meters of a site.
    Read(usize),
    /// `arc SITE LENGTH`: the meters of an arc.
    Arc {
        /// The first site of the arc.
        site: usize,
        /// How many sites it has.
        len: usize,
    },
    /// `meters`: the meters of every site.
    Meters,
    /// `close`: closes the ring.
    Close,
}

impl RingDigits<'_> {
    /// The letters, one for each digit. Only want of memory is refused.
    pub fn to_letters(self, alloc: Global) -> Result<Vec<u8>, AllocError>
        ensures { IfOk result (λ v. vec_items v ≡ letters self.entry.text.now) }
    {
        let mut letters = Vec::new(alloc);
        for byte in self.text {
            letters.push(byte.saturating_sub(b'0'))?;
        }
        Ok(letters)
    }
}

impl fmt::Display for RingDigits<'_> {
    ghost output = { λ d. Some (digits (letters d.text.now)) };

    fn fmt<W: fmt::Write>(&self, f: &mut fmt::Formatter<W>) -> fmt::Result {
        for byte in self.text {
            let letter = byte.saturating_sub(b'0');
            write!(f, "{letter}")?;
        }
        Ok(())
    }
}

impl Command<'_> {
    /// What sort of command it is.
    pub fn verb(&self) -> Verb
        ensures { result ≡ verb_of (command_meant self.now) }
    {
        match self {
            Command::Open(_) => Verb::Open,
            Command::Step | Command::Steps(_) => Verb::Step,
            Command::Touch { .. } => Verb::Touch,
            Command::Read(_) => Verb::Read,
            Command::Arc { .. } => Verb::Arc,
            Command::Meters => Verb::Meters,
            Command::Close => Verb::Close,
        }
    }

    /// The player's call that it is, if it is one call: steps at once, an arc and the meters are none. `ring` has the
    /// letters of the ring that `open` opens, and is not looked at otherwise. A letter above 255 is asked as 255, which
    /// no alphabet has.
    pub fn call<'a>(&self, ring: &'a [u8]) -> Option<Call<'a>>
        ensures { option_map call_meant result ≡ one_call (command_meant self.now) ring.now }
    {
        match *self {
            Command::Open(_) => Some(Call::Open(ring)),
            Command::Step => Some(Call::Step),
            Command::Touch { site, letter } => Some(Call::Touch {
                site,
                letter: u8::try_from(letter).unwrap_or(u8::MAX),
            }),
            Command::Read(site) => Some(Call::Read { site }),
            Command::Close => Some(Call::Close),
            Command::Steps(_) | Command::Arc { .. } | Command::Meters => None,
        }
    }
}

impl fmt::Display for Command<'_> {
    ghost output = { λ c. Some (command_text (command_meant c)) };

    fn fmt<W: fmt::Write>(&self, f: &mut fmt::Formatter<W>) -> fmt::Result {
        let name = self.verb().name();
        match self {
            Command::Open(RingDigits { text: [] }) => f.write_str(name),
            Command::Open(ring) => write!(f, "{name} {ring}"),
            Command::Step | Command::Meters | Command::Close => f.write_str(name),
            Command::Steps(count) => write!(f, "{name} {count}"),
            Command::Touch { site, letter } => write!(f, "{name} {site} {letter}"),
            Command::Read(site) => write!(f, "{name} {site}"),
            Command::Arc { site, len } => write!(f, "{name} {site} {len}"),
        }
    }
}
