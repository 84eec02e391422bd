// The sum of charges in cents, modulo 1,200.
ghost use Rattle.std.specs.Prelude.{◌≡◌, IsTrue};
ghost use Rattle.charge.specs.Decimals.{cents_sum, cents_opposite};
ghost use Rattle.charge.specs.Kinds.{cents};

use crate::Charge;
use crate::cents::Cents;
use crate::cents::decimals::{equal_values, may_enter, octave_opposite, octave_sum};

impl Charge for Cents {
    ghost kind = { cents };

    fn zero() -> Cents {
        Cents { digits: 0 }
    }

    // A sum may always be an entry.
    fn plus(self, other: Cents) -> Cents
        ensures sum { cents.means result
            ≡ cents.group.add (cents.means self) (cents.means other) }
        ensures digits { result.digits ≡ cents_sum self.digits other.digits }
        ensures entry { IsTrue (cents.entry result) }
    {
        Cents {
            digits: octave_sum(self.digits, other.digits),
        }
    }

    // An opposite may always be an entry, too.
    fn opposite(self) -> Cents
        ensures opposite { cents.means result ≡ cents.group.neg (cents.means self) }
        ensures digits { result.digits ≡ cents_opposite self.digits }
        ensures entry { IsTrue (cents.entry result) }
    {
        Cents {
            digits: octave_opposite(self.digits),
        }
    }

    fn same(self, other: Cents) -> bool {
        equal_values(self.digits, other.digits)
    }

    fn is_entry(self) -> bool {
        may_enter(self.digits)
    }
}
