// The program's commands by name.
ghost use Rattle.std.specs.Prelude.{◌≡◌};
ghost use Rattle.cli.specs.Requests.{subcommand_text, named_subcommand};

use console::{Named, find_named};

/// What sort of request the arguments are, by the first word.
#[derive(Clone, Copy, PartialEq, Eq, Debug)]
pub enum Subcommand {
    /// `help`.
    Help,
    /// `show`.
    Show,
    /// `encode`.
    Encode,
    /// `judge`.
    Judge,
    /// `crossings`.
    Crossings,
    /// `compare`.
    Compare,
    /// `play`.
    Play,
    /// `run`.
    Run,
}

const SUBCOMMANDS: [Subcommand; 8] = [
    Subcommand::Help,
    Subcommand::Show,
    Subcommand::Encode,
    Subcommand::Judge,
    Subcommand::Crossings,
    Subcommand::Compare,
    Subcommand::Play,
    Subcommand::Run,
];

impl Named for Subcommand {
    ghost text = { subcommand_text };

    fn name(self) -> &'static str {
        match self {
            Subcommand::Help => "help",
            Subcommand::Show => "show",
            Subcommand::Encode => "encode",
            Subcommand::Judge => "judge",
            Subcommand::Crossings => "crossings",
            Subcommand::Compare => "compare",
            Subcommand::Play => "play",
            Subcommand::Run => "run",
        }
    }
}

// The command that has a name, if any has.
pub(crate) fn subcommand_named(word: &[u8]) -> Option<Subcommand>
    ensures { result ≡ named_subcommand word.now }
{
    find_named(&SUBCOMMANDS, word)
}
