// Numbers as words.
ghost use Rattle.std.specs.Prelude.{◌≡◌, ◌<◌, IfSome};
ghost use Rattle.console.specs.Numbers.{number_end, with_digit, number, signed_number};

/// The numbers of a text are below this, 2^63.
pub const NUMBER_END: u64 = 1 << 63;

// A value with one digit more, if the byte is a digit and the number stays below the end.
fn with_digit(value: u64, byte: u8) -> Option<u64>
    ensures { result ≡ with_digit value byte }
{
    if !byte.is_ascii_digit() {
        return None;
    }
    let digit = u64::from(byte - b'0');
    let longer = value.checked_mul(10)?.checked_add(digit)?;
    (longer < NUMBER_END).then_some(longer)
}

/// The number that a word writes: one decimal digit or more and nothing else, whose value is below [`NUMBER_END`].
/// Leading zeros are allowed, and a sign is not.
pub fn read_number(word: &[u8]) -> Option<u64>
    ensures value { result ≡ number word.now }
    ensures bound { IfSome result (λ v. v < number_end) }
{
    if word.is_empty() {
        return None;
    }
    let mut value = 0;
    for byte in word {
        value = with_digit(value, *byte)?;
    }
    Some(value)
}

// The signed number that a word writes, if it writes one.
pub(crate) fn read_signed(word: &[u8]) -> Option<i64>
    ensures { result ≡ signed_number word.now }
{
    match word {
        [b'-', digits @ ..] => Some(-(read_number(digits)? as i64)),
        _ => Some(read_number(word)? as i64),
    }
}
