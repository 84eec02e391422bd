// The sorts of command by name.
ghost use Rattle.std.specs.Prelude.{◌≡◌};
ghost use Rattle.cli.specs.Commands.{verb_text, named_verb};

use crate::command::Verb;
use console::{Named, find_named};

const VERBS: [Verb; 7] = [
    Verb::Open,
    Verb::Step,
    Verb::Touch,
    Verb::Read,
    Verb::Arc,
    Verb::Meters,
    Verb::Close,
];

impl Named for Verb {
    ghost text = { verb_text };

    fn name(self) -> &'static str {
        match self {
            Verb::Open => "open",
            Verb::Step => "step",
            Verb::Touch => "touch",
            Verb::Read => "read",
            Verb::Arc => "arc",
            Verb::Meters => "meters",
            Verb::Close => "close",
        }
    }
}

// The sort that has a name, if any has.
pub(crate) fn verb_named(word: &[u8]) -> Option<Verb>
    ensures { result ≡ named_verb word.now }
{
    find_named(&VERBS, word)
}
