// The crossings of a preset, as a page.
ghost use Rattle.std.specs.Prelude.{◌≡◌, ◌^◌, ◌≤◌, length, take, Some, IfOk, IfErr, IfSome};
ghost use Rattle.preset.specs.Loads.{preset_of};
ghost use Rattle.preset.specs.Presets.{whole_preset};
ghost use Rattle.console.specs.Shows.{unless_memory, refusal_told};
ghost use Rattle.report.specs.ReportLines.{LineIs};
ghost use Rattle.report.specs.Finds.{answer_good};
ghost use Rattle.report.specs.Texts.{row_text, rows_text, notation_of};
ghost use Rattle.report.specs.Reports.{CrossingsPage, CrossedAs, CrossingsTell, crossing_notation};

use crate::charges::charges_of;
use crate::report_line::{LineNotation, ReportLine};
use crate::rows::rows_text;
use crate::verdict::{CROSSING_ROOM, judge_notation};
use bench::Break;
use console::ShowError;
use criterion::MOST_SHOWN;
use preset::{Loaded, PresetStrips, Sent, by_kind};
use preset_bench::judge;
use std::alloc::{AllocError, Global};

// The kind and the alphabet of a preset, and the words that crossings are on: one letter fewer than its label's.
fn crossing_notation(preset: Loaded<'_>) -> LineNotation
    ensures { notation_of result ≡ crossing_notation preset.entry.kind preset.entry.header }
{
    let LineNotation { kind, q, m } = judge_notation(preset);
    LineNotation { kind, q, m: m - 1 }
}

// The page of crossings at the front of a strip, one for each word.
fn page_line<C: Sent>(
    alloc: Global,
    notation: LineNotation,
    strip: &[C],
    found: Option<Break<C>>,
) -> Result<ReportLine, AllocError>
    requires { (notation.m ≤ 22)
        × (notation.q ^ notation.m ≤ 4096)
        × (notation.q ^ notation.m ≤ length strip.now) }
    ensures { let rows = rows_text (λ i x. row_text (notation_of notation) i (C.sending.entry x)) 0
        (take (notation.q ^ notation.m) strip.now) in
        IfOk result (LineIs rows (answer_good found)) }
{
    let count = notation.q.pow(notation.m as u32);
    let text = rows_text(alloc, notation, &strip[..count])?;
    Ok(ReportLine {
        text,
        good: found.is_none(),
    })
}

// The page of a preset of one kind.
fn cross_charges<C: Sent>(alloc: Global, preset: Loaded<'_>) -> Result<ReportLine, ShowError>
    requires { preset.kind ≡ C.sending.named }
    ensures { IfSome (unless_memory result)
        (CrossingsPage C.kind C.sending (preset_of preset.entry)) }
{
    let charges = charges_of::<C>(alloc, preset.entries)?;
    let mut strip = vec![in alloc; C::zero(); CROSSING_ROOM]?;
    let crossings = strip.as_mut_slice();
    let mut ring = [0u8; MOST_SHOWN];
    let found = judge(preset, &charges, crossings, &mut ring)?;
    Ok(page_line(alloc, crossing_notation(preset), crossings, found)?)
}

// The page of a preset of any kind.
#[tactic(auto, using(crate::proofs::OfKind::crossed_as))]
fn cross_kind(alloc: Global, preset: Loaded<'_>) -> Result<ReportLine, ShowError>
    ensures { IfSome (unless_memory result) (CrossedAs preset.entry.kind (preset_of preset.entry)) }
{
    by_kind!(preset.kind, cross_charges::<_>(alloc, preset))
}

/// The page of what crosses at each word of n + k - 2 letters, a line each, of the preset that the bytes are: the word,
/// a tab and the charge, by the codes of the words. It is good where the preset holds.
///
/// # Errors
///
/// The preset's refusal, for which no memory is needed, or `ShowError::Memory`.
pub fn crossings_page(alloc: Global, input: &[u8]) -> Result<ReportLine, ShowError>
    ensures page { IfSome (unless_memory result) (CrossingsTell (whole_preset input.now)) }
    // No memory is needed to tell a refusal.
    ensures refused { IfErr (whole_preset input.now) (λ f. refusal_told result ≡ Some f) }
{
    let mut strips = PresetStrips::new();
    let preset = strips.read(input)?;
    cross_kind(alloc, preset)
}
