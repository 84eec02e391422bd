// Numbers and rings as words.
ghost use Rattle.std.specs.Prelude.{◌≡◌};
ghost use Rattle.std.specs.Option.{option_map};
ghost use Rattle.cli.specs.Commands.{count, ring, letters};
ghost use Rattle.std.specs.Str.{all_ascii_digits};

use crate::command::RingDigits;
use console::{NUMBER_END, read_number};

// Whether a word has nothing but digits.
fn all_digits(word: &[u8]) -> bool
    ensures { result ≡ all_ascii_digits word.now }
{
    for byte in word {
        if !byte.is_ascii_digit() {
            return false;
        }
    }
    true
}

// The number that a word writes, if it writes one. One that is too large for a page counts as the end of its numbers.
pub(crate) fn read_count(word: &[u8]) -> Option<usize>
    ensures { result ≡ count word.now }
{
    match read_number(word) {
        Some(number) => Some(number as usize),
        None if !word.is_empty() && all_digits(word) => Some(NUMBER_END as usize),
        None => None,
    }
}

// The ring that a word writes, if it writes one.
pub(crate) fn read_ring(word: &[u8]) -> Option<RingDigits<'_>>
    ensures { option_map (λ d. letters d.text.now) result ≡ ring word.now }
{
    all_digits(word).then_some(RingDigits { text: word })
}
