// A preset that was read, judged and told.
ghost use Rattle.std.specs.Prelude.{◌≡◌, IfOk};
ghost use Rattle.preset.specs.Loads.{preset_of};
ghost use Rattle.report.specs.Texts.{notation_of};
ghost use Rattle.report.specs.Reports.{JudgeLine, JudgedAs, judge_notation};

use crate::charges::charges_of;
use crate::report_line::{LineNotation, Question, ReportLine};
use crate::texts::Asked;
use criterion::MOST_SHOWN;
use fault::limits::MOST_WORDS;
use preset::{Loaded, Sent, by_kind};
use preset_bench::{judge, sent_found};
use std::alloc::{AllocError, Global};

// How many crossings a strip has room for: no label has more words.
pub(crate) const CROSSING_ROOM: usize = MOST_WORDS as usize;

// The kind and the alphabet of a preset, and the words that its label is on.
pub(crate) fn judge_notation(preset: Loaded<'_>) -> LineNotation
    ensures { notation_of result ≡ judge_notation preset.entry.kind preset.entry.header }
{
    let header = preset.header;
    LineNotation {
        kind: preset.kind,
        q: header.q as usize,
        m: (header.n + header.k - 1) as usize,
    }
}

// The line of a preset of one kind.
fn judge_charges<C: Sent>(
    alloc: Global,
    name: &str,
    preset: Loaded<'_>,
) -> Result<ReportLine, AllocError>
    requires { preset.kind ≡ C.sending.named }
    ensures { IfOk result (JudgeLine C.kind C.sending name.now (preset_of preset.entry)) }
{
    let charges = charges_of::<C>(alloc, preset.entries)?;
    let mut crossings = vec![in alloc; C::zero(); CROSSING_ROOM]?;
    let mut ring = [0u8; MOST_SHOWN];
    let found = judge(preset, &charges, &mut crossings, &mut ring);
    let asked = Asked {
        question: Question::Judge,
        subject: name,
        notation: judge_notation(preset),
    };
    asked.line(alloc, &ring, sent_found(found))
}

// The line of a preset of any kind.
#[tactic(auto, using(crate::proofs::OfKind::judged_as))]
pub(crate) fn judge_kind(
    alloc: Global,
    name: &str,
    preset: Loaded<'_>,
) -> Result<ReportLine, AllocError>
    ensures { IfOk result (JudgedAs preset.entry.kind name.now (preset_of preset.entry)) }
{
    by_kind!(preset.kind, judge_charges::<_>(alloc, name, preset))
}
