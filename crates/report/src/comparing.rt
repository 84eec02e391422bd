// The densities of two presets, compared and told.
ghost use Rattle.std.specs.Prelude.{◌≡◌, true, IfOk, Ok};
ghost use Rattle.preset.specs.Loads.{preset_of};
ghost use Rattle.preset.specs.Presets.{whole_preset};
ghost use Rattle.report.specs.Texts.{notation_of};
ghost use Rattle.report.specs.Reports.{CompareLine, ComparedAs, CompareTells, compare_notation, same_kind};

use crate::charges::charges_of;
use crate::compare::compare_tables;
use crate::report_line::{LineNotation, Question, ReportLine};
use crate::texts::{Asked, kinds_line, refused_line};
use crate::verdict::CROSSING_ROOM;
use criterion::MOST_SHOWN;
use preset::{Loaded, PresetStrips, Sent, by_kind};
use preset_bench::sent_found;
use std::alloc::{AllocError, Global};

// The kind and the alphabet of two densities, and the words that their label is on.
fn compare_notation(first: Loaded<'_>, second: Loaded<'_>) -> LineNotation
    ensures { let p = first.entry in
        notation_of result ≡ compare_notation p.kind p.header second.entry.header }
{
    LineNotation {
        kind: first.kind,
        q: first.header.q as usize,
        m: first.header.k.max(second.header.k) as usize,
    }
}

// The line of two presets of one kind. They make no struct, since the second may be refused when there is a first.
fn compare_charges<C: Sent>(
    alloc: Global,
    subject: &str,
    first: Loaded<'_>,
    second: Loaded<'_>,
) -> Result<ReportLine, AllocError>
    requires first { first.kind ≡ C.sending.named }
    requires second { second.kind ≡ C.sending.named }
    ensures { IfOk result
        (CompareLine C.kind C.sending subject.now
        (preset_of first.entry) (preset_of second.entry)) }
{
    let charges = charges_of::<C>(alloc, first.entries)?;
    let others = charges_of::<C>(alloc, second.entries)?;
    let mut crossings = vec![in alloc; C::zero(); CROSSING_ROOM]?;
    let mut ring = [0u8; MOST_SHOWN];
    let found = compare_tables(
        first.header,
        &charges,
        second.header,
        &others,
        &mut crossings,
        &mut ring,
    );
    let asked = Asked {
        question: Question::Compare,
        subject,
        notation: compare_notation(first, second),
    };
    asked.line(alloc, &ring, sent_found(found))
}

// The line of two presets of the first one's kind.
#[tactic(auto, using(crate::proofs::OfKind::compared_as))]
fn compare_kind(
    alloc: Global,
    subject: &str,
    first: Loaded<'_>,
    second: Loaded<'_>,
) -> Result<ReportLine, AllocError>
    requires { second.kind ≡ first.kind }
    ensures { IfOk result
        (ComparedAs true first.entry.kind subject.now
        (preset_of first.entry) (preset_of second.entry)) }
{
    by_kind!(
        first.kind,
        compare_charges::<_>(alloc, subject, first, second)
    )
}

// The line of two presets of any kinds.
fn compare_loaded(
    alloc: Global,
    subject: &str,
    first: Loaded<'_>,
    second: Loaded<'_>,
) -> Result<ReportLine, AllocError>
    ensures { let p = preset_of first.entry in
        let other = preset_of second.entry in
        IfOk result (ComparedAs (same_kind p.head.kind other.head.kind) p.head.kind
        subject.now p other) }
{
    if first.kind != second.kind {
        return kinds_line(alloc, subject);
    }
    compare_kind(alloc, subject, first, second)
}

// The line of a preset that was read and of the bytes of another.
fn compare_with(
    alloc: Global,
    name: &str,
    first: Loaded<'_>,
    other: &str,
    bytes: &[u8],
) -> Result<ReportLine, AllocError>
    ensures { let read = Ok (preset_of first.entry) in
        IfOk result (CompareTells name.now other.now read (whole_preset bytes.now)) }
{
    let mut strips = PresetStrips::new();
    match strips.read(bytes) {
        Ok(second) => {
            let subject = format!(in alloc; "{name}\t{other}")?;
            compare_loaded(alloc, subject.as_str(), first, second)
        }
        Err(fault) => refused_line(alloc, other, fault),
    }
}

/// The line of two names and their bytes: whether the densities of the two presets give every ring the same total. It
/// has no newline, and its parts are kept apart by tabs. A preset that is refused has its own name on the line, the
/// first before the second.
///
/// ```text
/// NAME OTHER agree
/// NAME OTHER differ WORD RING TOTAL TOTAL
/// NAME OTHER kinds differ
/// NAME refused CODE PLACE
/// ```
///
/// # Errors
///
/// Where there is not enough memory.
pub fn compare_line(
    alloc: Global,
    name: &str,
    input: &[u8],
    other: &str,
    bytes: &[u8],
) -> Result<ReportLine, AllocError>
    ensures { IfOk result (CompareTells name.now other.now
        (whole_preset input.now) (whole_preset bytes.now)) }
{
    let mut strips = PresetStrips::new();
    match strips.read(input) {
        Ok(first) => compare_with(alloc, name, first, other, bytes),
        Err(fault) => refused_line(alloc, name, fault),
    }
}
