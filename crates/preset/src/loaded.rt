// A preset on the strips that hold its letters and its entries.
ghost use Rattle.std.proofs.Props.{props};
ghost use Rattle.preset.specs.Sound.{Sound};

use crate::entry::Entry;
use crate::header::{Head, Header};
use crate::item_limits::ItemLimits;
use charge::ChargeKind;

/// A preset on the strips that hold its letters and its entries. Its sizes are in range, it has as many letters and
/// entries as they ask, and each is allowed.
#[derive(Clone, Copy)]
pub struct Loaded<'a> {
    /// The kind of charge that the header names.
    pub kind: ChargeKind,
    /// The number of that kind, and the sizes.
    pub header: Header,
    /// The rule's answers, by the codes of their words: q^n letters below q.
    pub letters: &'a [u8],
    /// The density's charges, by the codes of their words: q^k entries that the kind allows.
    pub entries: &'a [Entry],
    pub ghost sound: { Sound (record {
      head = record { kind = kind; header = header };
      letters = letters.now;
      entries = entries.now;
    }) } by { Prim.hlevel props },
}

impl<'a> Loaded<'a> {
    ghost use Rattle.std.specs.Prelude.{◌≡◌};
    ghost use Rattle.preset.specs.Heads.{head_of};
    ghost use Rattle.preset.specs.Loads.{preset_of};
    ghost use Rattle.preset.specs.Writes.{header_fronts};

    // The preset of a header that has passed and of the fronts of two strips.
    pub(crate) fn from_fronts(head: Head, letters: &'a [u8], entries: &'a [Entry]) -> Loaded<'a>
        requires { Sound (header_fronts (head_of head) letters.now entries.now) }
        ensures { preset_of result ≡ header_fronts (head_of head) letters.now entries.now }
    {
        Loaded {
            kind: head.kind,
            header: head.header,
            letters: &letters[..head.letter_count()],
            entries: &entries[..head.entry_count()],
        }
    }

    // What the letters and the entries are held to.
    pub(crate) fn limits(&self) -> ItemLimits
        ensures { result.kind ≡ self.now.kind }
    {
        let head = Head {
            kind: self.kind,
            header: self.header,
        };
        head.limits()
    }
}
