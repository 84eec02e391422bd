// Charges of kind cents: 0 to 1,199, kept as four decimal digits.
ghost use Rattle.std.specs.Prelude.{◌≡◌, if◌then◌else◌, Some, None, nat_lt};
ghost use Rattle.std.specs.Option.{option_map};
ghost use Rattle.charge.specs.Decimals.{value_of, four_digits};
ghost use Rattle.charge.specs.Ranges.{cents_end};

mod adding;
mod decimals;

use crate::cents::decimals::{digits_value, to_digits};

/// The number of cents in an octave.
pub const OCTAVE: u16 = 1_200;

/// A pitch in cents, added modulo [`OCTAVE`], in four decimal digits of four bits each. Every sixteen bits mean
/// something: the value of their digits modulo 1,200. With digits up to 9 and a value up to 1,199 a charge may be an
/// entry. `==` compares digits; what two charges mean is compared by `same`.
#[derive(Clone, Copy, PartialEq, Eq, Debug)]
pub struct Cents {
    /// The digits, the thousands in the highest four bits: `0x1199` is 1,199.
    pub digits: u16,
}

impl Cents {
    /// The charge of a number of cents, if it is below `OCTAVE`.
    pub fn new(cents: u16) -> Option<Cents>
        ensures { option_map (λ c. c.digits) result
            ≡ (if nat_lt cents cents_end then Some (four_digits cents) else None) }
    {
        if cents < OCTAVE {
            Some(Cents {
                digits: to_digits(cents),
            })
        } else {
            None
        }
    }

    /// What the digits stand for, each times its power of ten, whether or not it is above 9: 0 to 16,665.
    pub fn value(self) -> u16
        ensures { result ≡ value_of self.digits }
    {
        digits_value(self.digits)
    }
}
