// Why a call has no result of its own.
use bench::Refused;
use fault::Fault;
use std::alloc::AllocError;
use std::io;

// The first or the second part of the call is refused, or the call is, or the result cannot be printed.
#[derive(Drop)]
pub enum CaseError {
    First(Fault),
    Second(Fault),
    Refused(Fault),
    Io(io::Error),
}

impl From<Fault> for CaseError {
    fn from(fault: Fault) -> CaseError {
        CaseError::Refused(fault)
    }
}

impl<S: Drop> From<Refused<S>> for CaseError {
    fn from(refused: Refused<S>) -> CaseError {
        CaseError::Refused(Fault::from(refused))
    }
}

impl From<io::Error> for CaseError {
    fn from(error: io::Error) -> CaseError {
        CaseError::Io(error)
    }
}

impl From<AllocError> for CaseError {
    fn from(error: AllocError) -> CaseError {
        CaseError::Io(io::Error::from(error))
    }
}
