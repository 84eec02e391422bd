// Letters and entries as words of a page.
ghost use Rattle.std.specs.Prelude.{◌≡◌, ◌∷◌, ◌++◌, Some, OnOk, string_bytes};
ghost use Rattle.charge.specs.declared.kind.ChargeKind.TheVariants.{Both};
ghost use Rattle.console.specs.Forms.{Form, letter_form, entry_form, entry_text, paired};
ghost use Rattle.console.specs.Forms.{entry as entry_of};

use crate::cutting::{Class, cut};
use crate::error::Expected;
use crate::number::{read_number, read_signed};
use charge::ChargeKind;
use preset::Entry;
use std::alloc::AllocError;
use std::fmt;

// What stands in a row of a page. The member `form` says how it is read and written.
pub(crate) trait PageItem: Copy {
    ghost form: { Form Self };

    // The item that a word writes, if it writes one.
    fn from_word(kind: ChargeKind, word: &[u8]) -> Option<Self>
        ensures { result ≡ form.reads kind word.now };

    // What is expected where a word is no item.
    fn expected() -> Expected
        ensures { result ≡ form.expected };

    // Adds a space and the item as a word.
    fn push(self, kind: ChargeKind, row: &mut String) -> Result<(), AllocError>
        ensures { OnOk result (string_bytes row.new
            ≡ string_bytes row.old ++ (32 ∷ form.shows kind self)) };
}

impl PageItem for u8 {
    ghost form = { letter_form };

    fn from_word(_kind: ChargeKind, word: &[u8]) -> Option<u8> {
        u8::try_from(read_number(word)?).ok()
    }

    fn expected() -> Expected {
        Expected::Letter
    }

    fn push(self, _kind: ChargeKind, row: &mut String) -> Result<(), AllocError> {
        write!(row, " {self}")
    }
}

// An entry of two parts, if each is there.
fn pair(signed: Option<i64>, plain: Option<u64>) -> Option<Entry>
    ensures { result ≡ paired signed plain }
{
    let signed = signed?;
    let plain = plain?;
    Some(Entry { signed, plain })
}

// An entry of kind both: its two parts with a colon between them.
fn read_both(word: &[u8]) -> Option<Entry>
    ensures { result ≡ entry_of Both word.now }
{
    let parts = cut(Class::NotColon, word);
    match parts.past {
        [_, plain @ ..] => pair(read_signed(parts.leading), read_number(plain)),
        [] => None,
    }
}

/// An entry of a kind of charge, which is shown as a word of a page: `-3` in voices, `7` in pitch, channels or cents,
/// `-3:7` in both. A part that the kind does not have is not shown.
#[derive(Clone, Copy, PartialEq, Eq, Debug)]
pub struct EntryWord {
    /// The kind of charge.
    pub kind: ChargeKind,
    /// The entry.
    pub entry: Entry,
}

impl fmt::Display for EntryWord {
    ghost output = { λ w. Some (entry_text w.kind w.entry) };

    fn fmt<W: fmt::Write>(&self, f: &mut fmt::Formatter<W>) -> fmt::Result {
        let Entry { signed, plain } = self.entry;
        match self.kind {
            ChargeKind::Voices => write!(f, "{signed}"),
            ChargeKind::Pitch | ChargeKind::Channels | ChargeKind::Cents => write!(f, "{plain}"),
            ChargeKind::Both => write!(f, "{signed}:{plain}"),
        }
    }
}

impl PageItem for Entry {
    ghost form = { entry_form };

    fn from_word(kind: ChargeKind, word: &[u8]) -> Option<Entry> {
        match kind {
            ChargeKind::Voices => pair(read_signed(word), Some(0)),
            ChargeKind::Pitch | ChargeKind::Channels | ChargeKind::Cents => {
                pair(Some(0), read_number(word))
            }
            ChargeKind::Both => read_both(word),
        }
    }

    fn expected() -> Expected {
        Expected::Entry
    }

    fn push(self, kind: ChargeKind, row: &mut String) -> Result<(), AllocError> {
        let word = EntryWord { kind, entry: self };
        write!(row, " {word}")
    }
}
