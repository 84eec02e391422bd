// Crossings as rows of text.
ghost use Rattle.std.specs.Prelude.{◌≡◌, ◌++◌, IfOk, string_bytes, OnOk};
ghost use Rattle.report.specs.Texts.{row_text, rows_text, notation_of};

use crate::report_line::LineNotation;
use preset::{Entry, Sent};
use std::alloc::{AllocError, Global};

// Adds the row of a word by its code and what crosses there.
fn push_row(
    text: &mut String,
    notation: LineNotation,
    code: usize,
    entry: Entry,
) -> Result<(), AllocError>
    ensures { OnOk result (string_bytes text.new
        ≡ string_bytes text.old ++ row_text (notation_of notation) code entry) }
{
    let word = notation.word(code);
    let crossing = notation.entry(entry);
    writeln!(text, "{word}\t{crossing}")
}

// A row for each word, in the order of the codes.
pub(crate) fn rows_text<C: Sent>(
    alloc: Global,
    notation: LineNotation,
    crossings: &[C],
) -> Result<String, AllocError>
    ensures { IfOk result (λ s. string_bytes s
        ≡ rows_text (λ i x. row_text (notation_of notation) i (C.sending.entry x)) 0
        crossings.now) }
{
    let mut text = String::new(alloc);
    for (code, charge) in crossings.iter().enumerate() {
        push_row(&mut text, notation, code, charge.to_entry())?;
    }
    Ok(text)
}
