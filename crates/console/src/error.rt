// Why a text is not a page.
ghost use Rattle.console.specs.Errors.{expected_text, text_sentence};
ghost use Rattle.std.specs.Prelude.{◌≡◌, Some};
ghost use Rattle.console.specs.declared.error.TextError.TheVariants.{Memory};

use crate::names::Named;
use crate::page_part::PagePart;
use std::alloc::{AllocError, AllocFailed};
use std::error::Error;
use std::fmt;

/// What should stand in place of what was read. Its text goes on a sentence: `the word rule`, `a number`.
#[derive(Clone, Copy, PartialEq, Eq, Debug)]
pub enum Expected {
    /// The name of the part that is due.
    Name(PagePart),
    /// The name of a kind of charge.
    Kind,
    /// A number of decimal digits, below [`crate::NUMBER_END`].
    Number,
    /// A letter, from 0 to 255.
    Letter,
    /// An entry of the page's kind of charge.
    Entry,
    /// Nothing more on the line.
    LineEnd,
    /// No line more that has words.
    TextEnd,
}

impl fmt::Display for Expected {
    ghost output = { λ e. Some (expected_text e) };

    fn fmt<W: fmt::Write>(&self, f: &mut fmt::Formatter<W>) -> fmt::Result {
        match self {
            Expected::Name(part) => {
                let name = part.name();
                write!(f, "the word {name}")
            }
            Expected::Kind => f.write_str("voices, pitch, channels, both or cents"),
            Expected::Number => f.write_str("a number"),
            Expected::Letter => f.write_str("a letter from 0 to 255"),
            Expected::Entry => f.write_str("an entry of the kind"),
            Expected::LineEnd => f.write_str("the end of the line"),
            Expected::TextEnd => f.write_str("the end of the text"),
        }
    }
}

/// Why a text is no page, or that there is no memory. Its text is one sentence.
#[derive(Clone, Copy, PartialEq, Eq, Debug)]
pub enum TextError {
    /// There is not enough memory.
    Memory,
    /// The text ends where a part is due.
    Ended {
        /// The part.
        due: PagePart,
    },
    /// A line has something else than it should.
    Wrong {
        /// The line, counted from 1. Lines without words count too.
        line: usize,
        /// What it should have.
        expected: Expected,
    },
}

impl fmt::Display for TextError {
    ghost output = { λ e. Some (text_sentence e) };

    fn fmt<W: fmt::Write>(&self, f: &mut fmt::Formatter<W>) -> fmt::Result {
        match self {
            TextError::Memory => f.write_str("There is not enough memory."),
            TextError::Ended { due } => {
                let name = due.name();
                write!(f, "The text ends where the line {name} is due.")
            }
            TextError::Wrong { line, expected } => write!(f, "Line {line}: expected {expected}."),
        }
    }
}

impl Error for TextError {}

impl From<AllocError> for TextError {
    ghost from_gives = { λ _ e. e ≡ Memory };

    fn from(_error: AllocError) -> TextError {
        TextError::Memory
    }
}

impl<T: Drop> From<AllocFailed<T>> for TextError {
    ghost from_gives = { λ _ e. e ≡ Memory };

    fn from(_error: AllocFailed<T>) -> TextError {
        TextError::Memory
    }
}
