// Things that a word names.
ghost use Rattle.std.specs.Prelude.{◌≡◌, ℕ, List};
ghost use Rattle.console.specs.Names.{named};

use crate::cutting::is_text;

/// A thing that a word names, such as a kind of charge or a part of a page. No `Display`: the names are compared with
/// words of a text, as bytes.
///
/// The ghost member `text` is the name.
pub trait Named: Copy {
    ghost text: { Self → List ℕ };

    /// The word that names it.
    fn name(self) -> &'static str
        ensures { result.now ≡ text self };
}

/// The first of some things that a word names, if it names one.
pub fn find_named<T: Named>(things: &[T], word: &[u8]) -> Option<T>
    ensures { result ≡ named T.text things.now word.now }
{
    for thing in things {
        if is_text(word, thing.name()) {
            return Some(*thing);
        }
    }
    None
}
