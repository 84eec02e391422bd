// A preset that was read, judged.
ghost use Rattle.std.specs.Prelude.{◌≡◌, length};
ghost use Rattle.bench.specs.States.{draft_bench};
ghost use Rattle.bench.specs.Verdicts.{lent, judge_found};
ghost use Rattle.preset_bench.specs.Finds.{JudgeFinds, preset_bench, preset_found};

use crate::drafting::draft;
use automaton::{Density, Rule};
use bench::{Break, Draft};
use charge::Charge;
use fault::Fault;
use preset::Loaded;

// Judges a drafted bench.
fn judge_draft<C: Charge, R: Rule + Drop, D: Density<C> + Drop>(
    draft: Draft<C, R, D>,
    crossings: &mut [C],
    ring: &mut [u8],
) -> Result<Option<Break<C>>, Fault>
    ensures { let b = draft_bench draft in
        JudgeFinds b (judge_found b (length crossings.old) (length ring.old))
        (lent crossings.old ring.old) (lent crossings.new ring.new) result }
{
    Ok(draft.judge(crossings, ring)?.found())
}

/// Judges the rule of a preset under the density that some charges are, and answers the break, if it has one. In either
/// verdict its q^(n+k-2) crossings stand at the front of a strip afterwards, and on a break the ring that shows it at
/// the front of another.
///
/// # Errors
///
/// As `draft` and then `Draft::judge`: `Stop::ShortStrip` at place 0 where the crossings or the ring, of up to 2(n + k)
/// - 3 cells, have no room.
pub fn judge<C: Charge>(
    preset: Loaded<'_>,
    charges: &[C],
    crossings: &mut [C],
    ring: &mut [u8],
) -> Result<Option<Break<C>>, Fault>
    ensures { let h = preset.entry.header in
        let letters = preset.entry.letters.now in
        let found = preset_found C.kind h letters charges.now
        (length crossings.old) (length ring.old) in
        JudgeFinds (preset_bench C.kind h letters charges.now) found
        (lent crossings.old ring.old) (lent crossings.new ring.new) result }
{
    judge_draft(draft(preset, charges)?, crossings, ring)
}
