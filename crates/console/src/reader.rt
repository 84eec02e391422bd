// A page that is read.
ghost use Rattle.std.specs.Prelude.{◌≡◌, Ok, Err, IfErr, vec_items, filter_map};
ghost use Rattle.console.specs.Grammar.{content, parsed};
ghost use Rattle.console.specs.Results.{value_as, SameUnless};
ghost use Rattle.console.specs.Cutting.{words_left};
ghost use Rattle.console.specs.declared.error.TextError.TheVariants.{Memory};

use crate::cutting::LineWords;
use crate::error::TextError;
use crate::item::PageItem;
use crate::outline::read_outline;
use crate::parsed_page::ParsedPage;
use charge::ChargeKind;
use preset::Entry;
use std::alloc::Global;

// The items that words write, on the heap. The words of an outline all write one.
fn collect_items<T: PageItem>(
    alloc: Global,
    kind: ChargeKind,
    words: LineWords<'_>,
) -> Result<Vec<T>, TextError>
    ensures { let items = filter_map (T.form.reads kind) (words_left words.entry) in
        SameUnless Memory (value_as vec_items result) (Ok items) }
{
    let mut items = Vec::new(alloc);
    for word in words {
        if let Some(item) = T::from_word(kind, word) {
            items.push(item)?;
        }
    }
    Ok(items)
}

/// Reads a page. The numbers of the header and the counts of letters and entries are not checked.
///
/// Refuses a text at the first line that is wrong, or where it ends too soon by the part that is due.
pub fn parse(alloc: Global, text: &[u8]) -> Result<ParsedPage, TextError>
    ensures draft { SameUnless Memory (value_as content result) (parsed text.now) }
    // No memory is needed to tell what is wrong with a text.
    ensures wrong { IfErr (parsed text.now) (λ e. value_as content result ≡ Err e) }
{
    let page = read_outline(text)?;
    let letters = collect_items::<u8>(alloc, page.kind, page.letters)?;
    let entries = collect_items::<Entry>(alloc, page.kind, page.entries)?;
    Ok(ParsedPage {
        kind: page.kind,
        header: page.header,
        letters,
        entries,
        lines: page.lines,
    })
}
