// Why arguments ask nothing.
ghost use Rattle.std.specs.Prelude.{Some};

use crate::line::MOST_STEPS;
use crate::shown::ShownArgument;
use console::Named;
use std::error::Error;
use std::fmt;

/// What a command is given after its name.
#[derive(Clone, Copy, PartialEq, Eq, Debug)]
pub enum Operand {
    /// `TEXT`, a file.
    Text,
    /// `PRESET`, a file.
    Preset,
    /// `RING`, the letters of a ring, a digit each.
    Ring,
    /// `STEPS`, a number.
    Steps,
}

impl Named for Operand {
    ghost use Rattle.cli.specs.Requests.{operand_text};

    ghost text = { operand_text };

    fn name(self) -> &'static str {
        match self {
            Operand::Text => "TEXT",
            Operand::Preset => "PRESET",
            Operand::Ring => "RING",
            Operand::Steps => "STEPS",
        }
    }
}

/// Why arguments ask nothing: the word that is wrong, or what is missing. Its text is a sentence without its end.
#[derive(Clone, Copy, PartialEq, Eq, Debug)]
pub enum UsageError<'a> {
    /// There are no arguments.
    NoCommand,
    /// The first word names no command.
    UnknownCommand(&'a [u8]),
    /// A word is an option, where none stands or another does.
    UnknownOption(&'a [u8]),
    /// The arguments end before an operand.
    Missing(Operand),
    /// A word follows the last operand.
    Surplus(&'a [u8]),
    /// A word that should name a file is no UTF-8.
    NotText(&'a [u8]),
    /// A word that should be a ring has more than digits.
    NotRing(&'a [u8]),
    /// A word that should be a number of steps has more than digits, or nothing.
    NotSteps(&'a [u8]),
    /// A number of steps is above [`MOST_STEPS`].
    ManySteps(&'a [u8]),
}

impl fmt::Display for UsageError<'_> {
    ghost use Rattle.cli.specs.Requests.{complaint, usage_sentence};

    ghost output = { λ e. Some (usage_sentence (complaint e)) };

    fn fmt<W: fmt::Write>(&self, f: &mut fmt::Formatter<W>) -> fmt::Result {
        match self {
            UsageError::NoCommand => f.write_str("no command is given"),
            UsageError::Missing(operand) => {
                let name = operand.name();
                write!(f, "{name} is missing")
            }
            UsageError::UnknownCommand(bytes) => {
                let word = ShownArgument { bytes };
                write!(f, "{word} is no command")
            }
            UsageError::UnknownOption(bytes) => {
                let word = ShownArgument { bytes };
                write!(f, "{word} is no option here")
            }
            UsageError::Surplus(bytes) => {
                let word = ShownArgument { bytes };
                write!(f, "{word} is one word too many")
            }
            UsageError::NotText(bytes) => {
                let word = ShownArgument { bytes };
                write!(f, "{word} is not UTF-8")
            }
            UsageError::NotRing(bytes) => {
                let word = ShownArgument { bytes };
                write!(f, "{word} is no ring as digits")
            }
            UsageError::NotSteps(bytes) => {
                let word = ShownArgument { bytes };
                write!(f, "{word} is no number of steps")
            }
            UsageError::ManySteps(bytes) => {
                let word = ShownArgument { bytes };
                write!(
                    f,
                    "{word} steps are too many: at most {MOST_STEPS} are run at once"
                )
            }
        }
    }
}

impl Error for UsageError<'_> {}
