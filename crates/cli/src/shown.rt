// Words of the arguments as they are shown.
ghost use Rattle.std.specs.Prelude.{◌≡◌, ◌<◌, if◌then◌else◌, Some, None};
ghost use Rattle.cli.specs.Commands.{lent_word};
ghost use Rattle.cli.specs.ShownArguments.{is_utf8, no_controls, hex_digit, byte_text, bytes_text, shown_argument};

use std::fmt;

// A word that is UTF-8.
#[tactic(auto, using(crate::proofs::Utf8::utf8_valid, crate::proofs::Utf8::utf8_invalid))]
pub(crate) fn utf8(word: &[u8]) -> Option<&str>
    ensures { lent_word result ≡ (if is_utf8 word.now then Some word.now else None) }
{
    match str::from_utf8(word) {
        Ok(text) => Some(text),
        Err(_) => None,
    }
}

// Whether a word has no control character.
fn no_controls(word: &[u8]) -> bool
    ensures { result ≡ no_controls word.now }
{
    for byte in word {
        if *byte < b' ' || *byte == 127 {
            return false;
        }
    }
    true
}

// Bytes, of which each that is no printable sign of ASCII is shown as \x and two digits.
#[derive(Drop)]
struct ShownBytes<'a> {
    bytes: &'a [u8],
}

#[derive(Drop)]
struct ShownByte {
    byte: u8,
}

// A digit below 16.
fn hex_digit(digit: u8) -> char
    requires { digit < 16 }
    ensures { result ≡ hex_digit digit }
{
    if digit < 10 {
        char::from(b'0' + digit)
    } else {
        char::from(b'a' - 10 + digit)
    }
}

impl fmt::Display for ShownByte {
    ghost output = { λ b. Some (byte_text b.byte) };

    fn fmt<W: fmt::Write>(&self, f: &mut fmt::Formatter<W>) -> fmt::Result {
        if self.byte >= b' ' && self.byte <= b'~' {
            let sign = char::from(self.byte);
            return write!(f, "{sign}");
        }
        let high = hex_digit(self.byte / 16);
        let low = hex_digit(self.byte % 16);
        write!(f, "\\x{high}{low}")
    }
}

impl fmt::Display for ShownBytes<'_> {
    ghost output = { λ w. Some (bytes_text w.bytes.now) };

    fn fmt<W: fmt::Write>(&self, f: &mut fmt::Formatter<W>) -> fmt::Result {
        for byte in self.bytes {
            let shown = ShownByte { byte: *byte };
            write!(f, "{shown}")?;
        }
        Ok(())
    }
}

/// A word or a name as it is shown in a line: as it is, or byte by byte where it is no UTF-8 or has a control
/// character. There, what is no printable sign of ASCII is `\x` and two digits. The empty word is shown as `''`.
#[derive(Clone, Copy)]
pub struct ShownArgument<'a> {
    /// The bytes of the word.
    pub bytes: &'a [u8],
}

impl fmt::Display for ShownArgument<'_> {
    ghost output = { λ w. Some (shown_argument w.bytes.now) };

    fn fmt<W: fmt::Write>(&self, f: &mut fmt::Formatter<W>) -> fmt::Result {
        if self.bytes.is_empty() {
            return f.write_str("''");
        }
        match utf8(self.bytes) {
            Some(text) if no_controls(self.bytes) => f.write_str(text),
            _ => {
                let bytes = ShownBytes { bytes: self.bytes };
                write!(f, "{bytes}")
            }
        }
    }
}
