// The kinds of charge by name.
ghost use Rattle.std.specs.Prelude.{◌≡◌};
ghost use Rattle.console.specs.Names.{kind_text, named_kind};

use crate::names::{Named, find_named};
use charge::ChargeKind;

const KINDS: [ChargeKind; 5] = [
    ChargeKind::Voices,
    ChargeKind::Pitch,
    ChargeKind::Channels,
    ChargeKind::Both,
    ChargeKind::Cents,
];

impl Named for ChargeKind {
    ghost text = { kind_text };

    fn name(self) -> &'static str {
        match self {
            ChargeKind::Voices => "voices",
            ChargeKind::Pitch => "pitch",
            ChargeKind::Channels => "channels",
            ChargeKind::Both => "both",
            ChargeKind::Cents => "cents",
        }
    }
}

/// The name of a kind of charge: `voices`, `pitch`, `channels`, `both` or `cents`.
pub fn kind_name(kind: ChargeKind) -> &'static str
    ensures { result.now ≡ kind_text kind }
{
    kind.name()
}

/// The kind of charge that a word names, if it names one.
pub fn kind_named(word: &[u8]) -> Option<ChargeKind>
    ensures { result ≡ named_kind word.now }
{
    find_named(&KINDS, word)
}
