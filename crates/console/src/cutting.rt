// A text cut into lines and words.
ghost use Rattle.std.specs.Prelude.{◌≡◌, ◌<◌, length, IfSome};
ghost use Rattle.std.specs.Iterator.{YieldsFirstRef, item_count};
ghost use Rattle.std.specs.List.{prefix_len};
ghost use Rattle.std.specs.Str.{bytes_eq};
ghost use Rattle.console.specs.Cutting.{blank, belongs, leading, past, words as words_of, words_left, rejoined};

/// Which bytes the front that [`cut`] cuts off may have. An enum and no closure, since a clause can say which bytes
/// belong to it.
#[derive(Clone, Copy)]
pub enum Class {
    /// A space, a tab or a carriage return.
    Blank,
    /// Any other byte, the end of a line among them.
    NotBlank,
    /// Any byte but the one that ends a line.
    NotNewline,
    /// Any byte but `:`.
    NotColon,
    /// Any byte but `#`.
    NotHash,
}

// A space, a tab or a carriage return.
pub(crate) fn is_blank(byte: u8) -> bool
    ensures { result ≡ blank byte }
{
    byte == b' ' || byte == b'\t' || byte == b'\r'
}

impl Class {
    fn has(self, byte: u8) -> bool
        ensures { result ≡ belongs self byte }
    {
        match self {
            Class::Blank => is_blank(byte),
            Class::NotBlank => !is_blank(byte),
            Class::NotNewline => byte != b'\n',
            Class::NotColon => byte != b':',
            Class::NotHash => byte != b'#',
        }
    }
}

/// A front of a text, and what comes after it.
#[derive(Clone, Copy)]
pub struct Split<'a> {
    /// The front, which may be empty.
    pub leading: &'a [u8],
    /// What comes after it, which may be empty.
    pub past: &'a [u8],
}

// How many bytes at the front are of the class.
fn leading_len(class: Class, text: &[u8]) -> usize
    ensures { result ≡ prefix_len (belongs class) text.now }
{
    text.iter().take_while(|byte| class.has(**byte)).count()
}

/// Cuts a text after the longest front whose bytes are all of the class.
///
/// ```text
/// cut(Class::NotColon, b"3:11")    leading: b"3", past: b":11"
/// cut(Class::NotColon, b"3")       leading: b"3", past: b""
/// ```
pub fn cut(class: Class, text: &[u8]) -> Split<'_>
    ensures leading { result.leading.now ≡ leading class text.now }
    ensures past { result.past.now ≡ past class text.now }
{
    let (leading, past) = text.split_at(leading_len(class, text));
    Split { leading, past }
}

/// Whether a word has the bytes of a text, and no others.
pub fn is_text(word: &[u8], text: &str) -> bool
    ensures { result ≡ bytes_eq word.now text.now }
{
    word == text.as_bytes()
}

// Cuts a line after its first word, if it has one.
fn first_word(line: &[u8]) -> Option<Split<'_>>
    ensures words { words_of line.now ≡ rejoined result }
    ensures shorter { IfSome result (λ s. length s.past.now < length line.now) }
{
    let word = cut(Class::NotBlank, cut(Class::Blank, line).past);
    if word.leading.is_empty() {
        None
    } else {
        Some(word)
    }
}

/// The words of a line, one after another: bytes that are not blank, which blanks keep apart ([`Class::Blank`]).
#[derive(Clone, Copy)]
pub struct LineWords<'a> {
    /// What is left of the line.
    pub line: &'a [u8],
}

impl<'a> Iterator for LineWords<'a> {
    type Item = &'a [u8];

    ghost next_gives = { YieldsFirstRef words_left };

    ghost remaining = { item_count words_left };

    fn next(&mut self) -> Option<&'a [u8]> {
        let word = first_word(self.line)?;
        self.line = word.past;
        Some(word.leading)
    }
}
