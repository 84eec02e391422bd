// Numbers: groups of seven bits, the highest first, each but the last in a byte with its top bit set.
ghost use Rattle.std.specs.Prelude.{◌≡◌, ◌<◌, ◌≤◌, length, IfOk, nat_lt};
ghost use Rattle.fault.specs.Answers.{at_front};
ghost use Rattle.preset.specs.Answers.{parse_seen};
ghost use Rattle.preset.specs.Numbers.{number_read, spell, high_bytes, NumberRefusals, NumberSpellsBack};

use crate::item_limits::ItemLimits;
use crate::items::Encode;
use fault::{Fault, Stop};

/// The largest number that bytes spell, 2^32 - 1.
pub const MOST_NUMBER: u64 = 0xffff_ffff;

// A number takes at most this many bytes.
const MOST_BYTES: usize = 5;

// Whether a byte is the last of its number: its top bit is clear.
fn ends_number(byte: u8) -> bool
    ensures { result ≡ nat_lt byte 128 }
{
    byte < 0x80
}

/// The number at the front of the input, and the bytes after it. The input is the end of a larger one, and `place` the
/// index there of its first byte, at which a number is refused.
///
/// # Errors
///
/// `Stop::CutShort` where the input ends before the number does, and `Stop::Misspelt` where the number begins with
/// 0x80, has more than five bytes or is over `MOST_NUMBER`.
///
/// ```text
/// 05 at place 3: the number 5      81 00: 128      80 05: misspelt at the place
/// ```
pub fn read_number(input: &[u8], place: usize) -> Result<(u64, &[u8]), Fault>
    ensures answer { parse_seen result ≡ number_read place input.now }
    ensures rest { IfOk result (λ p. length p.1.now < length input.now) }
    ensures refusals { NumberRefusals }
    ensures spells_back { NumberSpellsBack }
{
    if let [0x80, ..] = input {
        return Err(Stop::Misspelt.at(place));
    }
    let mut rest = input;
    let mut value: u64 = 0;
    for _ in 0..MOST_BYTES {
        let [byte, tail @ ..] = rest else {
            return Err(Stop::CutShort.at(place));
        };
        value = value * 128 + (*byte % 128) as u64;
        if ends_number(*byte) {
            if value > MOST_NUMBER {
                return Err(Stop::Misspelt.at(place));
            }
            return Ok((value, tail));
        }
        rest = tail;
    }
    Err(Stop::Misspelt.at(place))
}

// How many bytes a number takes.
pub(crate) fn spelt_len(value: u64) -> usize
    ensures count { result ≡ length (spell value) }
    ensures bound { result ≤ 10 }
{
    // A byte for each seven of its bits.
    value.max(1).ilog2() as usize / 7 + 1
}

// Writes the groups of `high` to the front of a strip, each with the top bit set, and answers how many there are.
fn put_high(high: u64, out: &mut [u8]) -> usize
    requires { length (high_bytes high) ≤ length out.old }
    ensures count { result ≡ length (high_bytes high) }
    ensures strip { out.new ≡ at_front (high_bytes high) out.old }
{
    if high == 0 {
        return 0;
    }
    let last = put_high(high / 128, out);
    out[last] = 0x80 + (high % 128) as u8;
    last + 1
}

// Writes a number to the front of a strip, where there is room, and answers how many bytes it takes.
pub(crate) fn put_number(value: u64, out: &mut [u8]) -> usize
    requires { length (spell value) ≤ length out.old }
    ensures count { result ≡ length (spell value) }
    ensures strip { out.new ≡ at_front (spell value) out.old }
{
    let last = put_high(value / 128, out);
    out[last] = (value % 128) as u8;
    last + 1
}

impl Encode for u64 {
    ghost bytes = { λ _ v. spell v };

    fn len(self, _shape: ItemLimits) -> usize {
        spelt_len(self)
    }

    fn put(self, _shape: ItemLimits, out: &mut [u8]) -> usize {
        put_number(self, out)
    }
}
