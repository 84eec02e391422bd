// Why the program stops before all that was asked is done.
use cli::{ScriptError, ShownArgument, UsageError};
use console::EncodeError;
use std::alloc::{AllocError, AllocFailed};
use std::io::ErrorKind;
use std::{fmt, io};

// What went wrong, with the word or the file that it is about. It is told in one line on standard error.
#[derive(Drop)]
pub(crate) enum Trouble<'a> {
    Memory,
    Usage(UsageError<'a>),
    // a file cannot be read, or be written
    Unread(&'a str, io::Error),
    Unwritten(&'a str, io::Error),
    // a file is in the way of the one that is to be the file once it is whole
    InTheWay(&'a str, String),
    // the preset would be written onto its own text
    OwnText(&'a str),
    Text(&'a str, EncodeError),
    Script(ScriptError),
    Input(io::Error),
    Output(io::Error),
}

impl<'a> Trouble<'a> {
    // Why a file cannot be read.
    pub(crate) fn unread(path: &'a str, error: io::Error) -> Trouble<'a> {
        match error.kind() {
            ErrorKind::OutOfMemory => Trouble::Memory,
            _ => Trouble::Unread(path, error),
        }
    }

    // Why a file cannot be written.
    pub(crate) fn unwritten(path: &'a str, error: io::Error) -> Trouble<'a> {
        match error.kind() {
            ErrorKind::OutOfMemory => Trouble::Memory,
            _ => Trouble::Unwritten(path, error),
        }
    }

    // Why standard input cannot be read.
    pub(crate) fn input(error: io::Error) -> Trouble<'a> {
        match error.kind() {
            ErrorKind::OutOfMemory => Trouble::Memory,
            _ => Trouble::Input(error),
        }
    }

    // Why a text gives no preset.
    pub(crate) fn text(path: &'a str, error: EncodeError) -> Trouble<'a> {
        match error {
            EncodeError::Text(console::TextError::Memory) => Trouble::Memory,
            _ => Trouble::Text(path, error),
        }
    }
}

// Where nothing else is said of an error, standard output cannot be written.
impl From<io::Error> for Trouble<'_> {
    fn from(error: io::Error) -> Self {
        Trouble::Output(error)
    }
}

impl From<AllocError> for Trouble<'_> {
    fn from(_error: AllocError) -> Self {
        Trouble::Memory
    }
}

impl<T: Drop> From<AllocFailed<T>> for Trouble<'_> {
    fn from(_error: AllocFailed<T>) -> Self {
        Trouble::Memory
    }
}

impl<'a> From<UsageError<'a>> for Trouble<'a> {
    fn from(error: UsageError<'a>) -> Trouble<'a> {
        Trouble::Usage(error)
    }
}

impl From<ScriptError> for Trouble<'_> {
    fn from(error: ScriptError) -> Self {
        match error {
            ScriptError::Memory => Trouble::Memory,
            ScriptError::Line { .. } => Trouble::Script(error),
        }
    }
}

// A name as it is shown in a line.
fn shown(name: &str) -> ShownArgument<'_> {
    ShownArgument {
        bytes: name.as_bytes(),
    }
}

impl fmt::Display for Trouble<'_> {
    fn fmt<W: fmt::Write>(&self, f: &mut fmt::Formatter<W>) -> fmt::Result {
        match self {
            Trouble::Memory => f.write_str("there is not enough memory"),
            Trouble::Usage(error) => write!(f, "{error} (ringbench help tells what there is)"),
            Trouble::Unread(path, error) => {
                let name = shown(path);
                write!(f, "{name} cannot be read: {error}")
            }
            Trouble::Unwritten(path, error) => {
                let name = shown(path);
                write!(f, "{name} cannot be written: {error}")
            }
            Trouble::InTheWay(path, unfinished) => {
                let name = shown(path);
                let other = shown(unfinished.as_str());
                write!(f, "{name} cannot be written: {other} is in the way")
            }
            Trouble::OwnText(path) => {
                let name = shown(path);
                write!(f, "{name} is the text itself, which is kept")
            }
            Trouble::Text(path, error) => {
                let name = shown(path);
                write!(f, "{name}: {error}")
            }
            Trouble::Script(error) => write!(f, "the script: {error}"),
            Trouble::Input(error) => write!(f, "standard input cannot be read: {error}"),
            Trouble::Output(error) => write!(f, "standard output cannot be written: {error}"),
        }
    }
}
