// Charges of kind channels: sixteen bits, added by exclusive or.
ghost use Rattle.std.specs.Prelude.{◌≡◌, ◌↔◌, IsTrue, bit_xor};
ghost use Rattle.charge.specs.Kinds.{channels};

use crate::Charge;

/// The number of sets of channels: 2^16.
pub const CHANNEL_SETS: u64 = 65_536;

/// A set of sixteen channels. Sets are added by exclusive or, so each is its own opposite, and each may be an entry.
#[derive(Clone, Copy, PartialEq, Eq, Debug)]
pub struct Channels {
    /// Bit i is set where the set has channel i.
    pub bits: u16,
}

// The channels that are in one of two sets and not in both.
fn symmetric_difference(a: u16, b: u16) -> u16
    ensures { result ≡ bit_xor a b }
{
    a ^ b
}

// Stands by itself so that the check proves it with no answer, and refuses an edit of it here.
fn equal_sets(a: u16, b: u16) -> bool
    ensures { IsTrue result ↔ (a ≡ b) }
{
    a == b
}

impl Charge for Channels {
    ghost kind = { channels };

    fn zero() -> Channels {
        Channels { bits: 0 }
    }

    fn plus(self, other: Channels) -> Channels {
        Channels {
            bits: symmetric_difference(self.bits, other.bits),
        }
    }

    // Each charge is its own opposite.
    fn opposite(self) -> Channels {
        Channels { bits: self.bits }
    }

    fn same(self, other: Channels) -> bool {
        equal_sets(self.bits, other.bits)
    }

    // Each set of channels may be an entry.
    fn is_entry(self) -> bool {
        true
    }
}
