// Charges of kind voices: whole numbers modulo 2^64, read as signed numbers.
ghost use Rattle.std.specs.Prelude.{◌≡◌, ◌+◌, ◌-◌, ◌^◌, ◌↔◌, IsTrue};
ghost use Rattle.charge.specs.Kinds.{bits, wrapped, signed, voices};
ghost use Rattle.charge.specs.Ranges.{voices_range};

use crate::Charge;

/// The least count that an entry of a density may have.
pub const LEAST_VOICES: i64 = -2_147_483_648;

/// The largest count that an entry of a density may have.
pub const MOST_VOICES: i64 = 2_147_483_647;

/// A number of voices: a whole number modulo 2^64, read as a signed number. Sums wrap around. From `LEAST_VOICES` to
/// `MOST_VOICES` it may be an entry, and what is judged under such entries is also true of whole numbers without
/// bounds.
#[derive(Clone, Copy, PartialEq, Eq, Debug)]
pub struct Voices {
    /// How many voices.
    pub count: i64,
}

// The sum modulo 2^64.
fn wrapped_sum(a: i64, b: i64) -> i64
    ensures { result ≡ wrapped (bits a + bits b) }
{
    a.wrapping_add(b)
}

// The opposite modulo 2^64.
fn wrapped_opposite(a: i64) -> i64
    ensures { result ≡ wrapped (2 ^ 64 - bits a) }
{
    a.wrapping_neg()
}

// Stands by itself so that the check proves it with no answer, and refuses an edit of it here.
fn equal_counts(a: i64, b: i64) -> bool
    ensures { IsTrue result ↔ (a ≡ b) }
{
    a == b
}

impl Charge for Voices {
    ghost kind = { voices };

    fn zero() -> Voices {
        Voices { count: 0 }
    }

    fn plus(self, other: Voices) -> Voices {
        Voices {
            count: wrapped_sum(self.count, other.count),
        }
    }

    fn opposite(self) -> Voices {
        Voices {
            count: wrapped_opposite(self.count),
        }
    }

    fn same(self, other: Voices) -> bool {
        equal_counts(self.count, other.count)
    }

    // The count is asked, and it is in range exactly where the whole number that it means is.
    fn is_entry(self) -> bool
        ensures entry { result ≡ voices.entry self }
        ensures range { result ≡ voices_range (signed (voices.means self)) }
    {
        LEAST_VOICES <= self.count && self.count <= MOST_VOICES
    }
}
