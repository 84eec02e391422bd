// Why the bytes of a preset are not told of.
ghost use Rattle.std.specs.Prelude.{◌≡◌, Some};
ghost use Rattle.console.specs.declared.failure.ShowError.TheVariants.{Memory, Refused};
ghost use Rattle.console.specs.Errors.{show_sentence};

use fault::Fault;
use std::alloc::AllocError;
use std::error::Error;
use std::fmt;

/// Why a preset is not shown. Its text is one sentence.
#[derive(Clone, Copy, PartialEq, Eq, Debug)]
pub enum ShowError {
    /// There is not enough memory.
    Memory,
    /// The bytes are refused as a preset, as `preset::read_whole` refuses them.
    Refused(Fault),
}

impl fmt::Display for ShowError {
    ghost output = { λ e. Some (show_sentence e) };

    fn fmt<W: fmt::Write>(&self, f: &mut fmt::Formatter<W>) -> fmt::Result {
        match self {
            ShowError::Memory => f.write_str("There is not enough memory."),
            ShowError::Refused(fault) => write!(f, "{fault}"),
        }
    }
}

impl Error for ShowError {}

impl From<AllocError> for ShowError {
    ghost from_gives = { λ _ e. e ≡ Memory };

    fn from(_error: AllocError) -> ShowError {
        ShowError::Memory
    }
}

impl From<Fault> for ShowError {
    ghost from_gives = { λ fault e. e ≡ Refused fault };

    fn from(fault: Fault) -> ShowError {
        ShowError::Refused(fault)
    }
}
