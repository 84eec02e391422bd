// The bytes of a preset, judged.
ghost use Rattle.std.specs.Prelude.{IfOk};
ghost use Rattle.preset.specs.Presets.{whole_preset};
ghost use Rattle.report.specs.Reports.{JudgeTells};

use crate::report_line::ReportLine;
use crate::texts::refused_line;
use crate::verdict::judge_kind;
use preset::PresetStrips;
use std::alloc::{AllocError, Global};

/// The line of some bytes under a name: whether they are a preset that holds. It has no newline, and its parts are kept
/// apart by tabs: the failing word, the ring that shows it, and that ring's totals before and after one step.
///
/// ```text
/// NAME holds
/// NAME breaks WORD RING TOTAL TOTAL
/// NAME refused CODE PLACE
/// ```
///
/// # Errors
///
/// Where there is not enough memory.
pub fn judge_line(alloc: Global, name: &str, input: &[u8]) -> Result<ReportLine, AllocError>
    ensures { IfOk result (JudgeTells name.now (whole_preset input.now)) }
{
    let mut strips = PresetStrips::new();
    match strips.read(input) {
        Ok(preset) => judge_kind(alloc, name, preset),
        Err(fault) => refused_line(alloc, name, fault),
    }
}
