// Four decimal digits in sixteen bits: read, written, and added and taken away digit by digit.
ghost use Rattle.std.specs.Prelude.{◌≡◌, ◌+◌, ◌-◌, ◌*◌, ◌%◌, ◌<◌, ◌≤◌, ◌↔◌, if◌then◌else◌, true, IsTrue};
ghost use Rattle.charge.specs.Decimals.{value_of, all_decimal, cents_entry, four_digits, cents_sum, cents_opposite};
ghost use Rattle.charge.specs.Ranges.{cents_end};

use crate::cents::OCTAVE;

// An octave, 1,200 cents, in digits.
const OCTAVE_DIGITS: u16 = 0x1200;

// Six in each of the three lower digits.
const SIXES: u16 = 0x666;

// What the digits stand for.
pub(super) fn digits_value(digits: u16) -> u16
    ensures { result ≡ value_of digits }
{
    (digits >> 12) * 1000 + (digits >> 8 & 0xf) * 100 + (digits >> 4 & 0xf) * 10 + (digits & 0xf)
}

// The digits of a number.
pub(super) fn to_digits(number: u16) -> u16
    requires { number < 10000 }
    ensures { result ≡ four_digits number }
{
    number / 1000 * 0x1000 + number / 100 % 10 * 0x100 + number / 10 % 10 * 0x10 + number % 10
}

// Whether each digit is at most 9, of digits below those of an octave: six more in each of the three lower ones then
// carries nowhere, so that each digit keeps its lowest bit.
#[tactic(auto, using(crate::proofs::DigitSums::decimal_by_carries))]
fn is_decimal(digits: u16) -> bool
    requires { digits < four_digits cents_end }
    ensures { result ≡ all_decimal digits }
{
    ((digits + SIXES) ^ digits) & 0x1110 == 0
}

// Whether the digits may be an entry.
#[tactic(auto, using(crate::proofs::DigitSums::entry_below, crate::proofs::DigitSums::entry_above))]
pub(super) fn may_enter(digits: u16) -> bool
    ensures { result ≡ cents_entry digits }
{
    digits < OCTAVE_DIGITS && is_decimal(digits)
}

// A six in the digit at a place, if that digit carried or borrowed: it counts sixteen, where ten are meant.
fn six_at(place: u16, moved: bool) -> u16
    requires { place ≤ 256 }
    ensures { result ≡ (if moved then place * 6 else 0) }
{
    if moved { place * 6 } else { 0 }
}

// The sum, digit by digit with carry. With six more in each of the three lower digits, one that passes 9 carries into
// the next: then the digits of the sum, from there down, are below those of `b`.
#[tactic(auto, using(crate::proofs::DigitSums::sum_by_digits))]
fn digits_sum(a: u16, b: u16) -> u16
    requires { (cents_entry a ≡ true) × (cents_entry b ≡ true) }
    ensures { result ≡ four_digits (value_of a + value_of b) }
{
    let raised = a + SIXES + b;
    a + b
        + six_at(0x1, raised % 0x10 < b % 0x10)
        + six_at(0x10, raised % 0x100 < b % 0x100)
        + six_at(0x100, raised % 0x1000 < b % 0x1000)
}

// The difference, digit by digit with borrow.
#[tactic(auto, using(crate::proofs::DigitSums::difference_by_digits))]
fn digits_difference(a: u16, b: u16) -> u16
    requires decimal { (all_decimal a ≡ true) × (all_decimal b ≡ true) }
    requires order { value_of b ≤ value_of a }
    ensures { result ≡ four_digits (value_of a - value_of b) }
{
    a - b
        - six_at(0x1, a % 0x10 < b % 0x10)
        - six_at(0x10, a % 0x100 < b % 0x100)
        - six_at(0x100, a % 0x1000 < b % 0x1000)
}

// The digits less an octave, where they reach one: of a value below two.
fn less_octave(digits: u16) -> u16
    requires decimal { all_decimal digits ≡ true }
    requires bound { value_of digits < 2 * cents_end }
    ensures { result ≡ four_digits (value_of digits % cents_end) }
{
    if digits < OCTAVE_DIGITS {
        digits
    } else {
        digits_difference(digits, OCTAVE_DIGITS)
    }
}

// Digits that may be an entry with the same meaning: the given ones, if they may be one.
fn reduced(digits: u16) -> u16
    ensures { result ≡ four_digits (value_of digits % cents_end) }
{
    if may_enter(digits) {
        digits
    } else {
        to_digits(digits_value(digits) % OCTAVE)
    }
}

// The sum modulo 1,200.
pub(super) fn octave_sum(a: u16, b: u16) -> u16
    ensures { result ≡ cents_sum a b }
{
    less_octave(digits_sum(reduced(a), reduced(b)))
}

// The opposite modulo 1,200: an octave less the digits, but zero of zero.
pub(super) fn octave_opposite(digits: u16) -> u16
    ensures { result ≡ cents_opposite digits }
{
    let digits = reduced(digits);
    if digits == 0 {
        0
    } else {
        digits_difference(OCTAVE_DIGITS, digits)
    }
}

// Whether two values are equal modulo 1,200.
pub(super) fn equal_values(a: u16, b: u16) -> bool
    ensures { IsTrue result ↔ (value_of a % cents_end ≡ value_of b % cents_end) }
{
    a == b || digits_value(a) % OCTAVE == digits_value(b) % OCTAVE
}
