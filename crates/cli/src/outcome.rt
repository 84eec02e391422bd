// What becomes of what was asked.
ghost use Rattle.std.specs.Prelude.{◌≡◌};
ghost use Rattle.std.specs.Process.{exit_status};
ghost use Rattle.cli.specs.Outcomes.{so, both, status};

use std::process::ExitCode;

/// What becomes of what was asked.
#[derive(Clone, Copy, PartialEq, Eq, Debug)]
pub enum Outcome {
    /// It is done, or it is so: a preset holds, two densities agree.
    Done,
    /// It is not, and the program has said why not.
    Undone,
}

impl Outcome {
    /// What becomes of a question, by whether it is so.
    pub fn so(is: bool) -> Outcome
        ensures { result ≡ so is }
    {
        if is { Outcome::Done } else { Outcome::Undone }
    }

    /// What becomes of two parts of what was asked: they are done where each is.
    pub fn and(self, other: Outcome) -> Outcome
        ensures { result ≡ both self other }
    {
        match self {
            Outcome::Done => other,
            Outcome::Undone => Outcome::Undone,
        }
    }

    /// The status that the program ends with: 0 where all is done, and else 1.
    pub fn status(self) -> ExitCode
        ensures { exit_status result ≡ status self }
    {
        match self {
            Outcome::Done => ExitCode::SUCCESS,
            Outcome::Undone => ExitCode::FAILURE,
        }
    }
}
