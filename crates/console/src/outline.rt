// A page that is read without room for its items.
ghost use Rattle.std.specs.Prelude.{◌≡◌, filter_map};
ghost use Rattle.std.specs.Option.{ok_or};
ghost use Rattle.console.specs.Grammar.{outlined, parsed};
ghost use Rattle.console.specs.Places.{place_meant};
ghost use Rattle.console.specs.Results.{value_as};
ghost use Rattle.console.specs.Rows.{row_of, each, items_row};
ghost use Rattle.console.specs.Cutting.{words_left};
ghost use Rattle.console.specs.declared.error.TextError.TheVariants.{Wrong};

use crate::cutting::LineWords;
use crate::error::TextError;
use crate::item::PageItem;
use crate::page_part::PagePart;
use crate::part_lines::PartLines;
use crate::place::Place;
use crate::row::{Row, read_end, read_kind_row, read_number_row, read_row};
use charge::ChargeKind;
use preset::{Entry, Header};

// What a page holds, its letters and entries as the words that write them.
#[derive(Clone, Copy)]
pub(crate) struct Outline<'a> {
    pub kind: ChargeKind,
    pub header: Header,
    pub letters: LineWords<'a>,
    pub entries: LineWords<'a>,
    pub lines: PartLines,
}

// The item that a word of a line writes.
fn read_item<T: PageItem>(kind: ChargeKind, line: usize, word: &[u8]) -> Result<T, TextError>
    ensures { result ≡ ok_or (T.form.reads kind word.now) (Wrong line T.form.expected) }
{
    T::from_word(kind, word).ok_or(TextError::Wrong {
        line,
        expected: T::expected(),
    })
}

// Each word of a line writes an item.
#[tactic(auto, using(crate::proofs::Reading::each_is))]
fn check_items<T: PageItem>(
    kind: ChargeKind,
    line: usize,
    words: LineWords<'_>,
) -> Result<(), TextError>
    ensures { let words = words_left words.entry in
        value_as (λ _. filter_map (T.form.reads kind) words) result
        ≡ each (T.form.reads kind) T.form.expected line words }
{
    for word in words {
        read_item::<T>(kind, line, word)?;
    }
    Ok(())
}

// The words after the part's name in the part's line, each of which writes an item.
fn read_items_row<'a, T: PageItem>(
    kind: ChargeKind,
    part: PagePart,
    place: Place<'a>,
) -> Result<Row<'a, LineWords<'a>>, TextError>
    ensures { let reads = T.form.reads kind in
        value_as (row_of (λ words. filter_map reads (words_left words))) result
        ≡ items_row reads T.form.expected part (place_meant place.entry) }
{
    let row = read_row(part, place)?;
    check_items::<T>(kind, row.line, row.value)?;
    Ok(row)
}

// Reads a page, or finds the first error, and takes no memory for it.
pub(crate) fn read_outline(text: &[u8]) -> Result<Outline<'_>, TextError>
    ensures { value_as outlined result ≡ parsed text.now }
{
    let kind = read_kind_row(Place { passed: 0, text })?;
    let q = read_number_row(PagePart::Letters, kind.after)?;
    let n = read_number_row(PagePart::Window, q.after)?;
    let l = read_number_row(PagePart::Reach, n.after)?;
    let k = read_number_row(PagePart::Width, l.after)?;
    let rule = read_items_row::<u8>(kind.value, PagePart::Rule, k.after)?;
    let density = read_items_row::<Entry>(kind.value, PagePart::Density, rule.after)?;
    read_end(density.after)?;
    Ok(Outline {
        kind: kind.value,
        header: Header {
            kind: u64::from(kind.value),
            q: q.value,
            n: n.value,
            l: l.value,
            k: k.value,
        },
        letters: rule.value,
        entries: density.value,
        lines: PartLines {
            kind: kind.line,
            letters: q.line,
            window: n.line,
            reach: l.line,
            width: k.line,
            rule: rule.line,
            density: density.line,
        },
    })
}
