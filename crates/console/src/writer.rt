// A preset as a page of text.
ghost use Rattle.std.specs.Prelude.{◌≡◌, IfOk, string_bytes};
ghost use Rattle.console.specs.Pages.{spaced, head_text, items_text, page_text};
ghost use Rattle.console.specs.ReadBack.{Holdable, ReadsAs};

use crate::item::PageItem;
use crate::kind::kind_name;
use charge::ChargeKind;
use preset::{Entry, Header};
use std::alloc::{AllocError, Global};

// The items of a row, a space before each.
fn row_text<T: PageItem>(alloc: Global, kind: ChargeKind, items: &[T]) -> Result<String, AllocError>
    ensures { IfOk result (λ s. string_bytes s ≡ spaced (T.form.shows kind) items.now) }
{
    let mut row = String::new(alloc);
    for item in items {
        item.push(kind, &mut row)?;
    }
    Ok(row)
}

// The lines of the kind and the sizes.
fn head_text(alloc: Global, kind: ChargeKind, header: Header) -> Result<String, AllocError>
    ensures { IfOk result (λ s. string_bytes s ≡ head_text kind header) }
{
    let name = kind_name(kind);
    let Header {
        kind: _,
        q,
        n,
        l,
        k,
    } = header;
    format!(in alloc; "kind {name}\nletters {q}\nwindow {n}\nreach {l}\nwidth {k}\n")
}

// The lines of the rule and the density, by their items, and of the bytes.
fn rows_text(alloc: Global, rule: &str, density: &str, bytes: usize) -> Result<String, AllocError>
    ensures { IfOk result (λ s. string_bytes s ≡ items_text rule.now density.now bytes) }
{
    format!(in alloc; "rule{rule}\ndensity{density}\nbytes {bytes}\n")
}

/// The page of a preset: one line for each part, where `bytes` is how many bytes the preset has. What is written so is
/// read as the same preset. The parts are no `Loaded`, since they may be of any header, which is written as it is; only
/// want of memory is refused.
pub fn page(
    alloc: Global,
    kind: ChargeKind,
    header: Header,
    letters: &[u8],
    entries: &[Entry],
    bytes: usize,
) -> Result<String, AllocError>
    ensures text { IfOk result (λ s. string_bytes s
        ≡ page_text kind header letters.now entries.now bytes) }
    ensures back { IfOk result (λ s. Holdable kind header letters.now entries.now bytes →
        ReadsAs kind header letters.now entries.now (string_bytes s)) }
{
    let rule = row_text(alloc, kind, letters)?;
    let density = row_text(alloc, kind, entries)?;
    let rows = rows_text(alloc, rule.as_str(), density.as_str(), bytes)?;
    let mut page = head_text(alloc, kind, header)?;
    page.push_str(rows.as_str())?;
    Ok(page)
}
