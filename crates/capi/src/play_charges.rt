// A preset of one kind, judged and played on, on lent strips of charges.
ghost use Rattle.std.specs.Prelude.{◌≡◌, ◌≤◌, length};
ghost use Rattle.fault.specs.Limits.{most_words};
ghost use Rattle.criterion.specs.Search.{most_shown};
ghost use Rattle.bench.specs.States.{draft_bench};
ghost use Rattle.bench.specs.Verdicts.{judge_found};
ghost use Rattle.player.specs.Whole.{with_answers};
ghost use Rattle.preset.specs.Loads.{preset_of};
ghost use Rattle.preset_bench.specs.Finds.{preset_bench, preset_found};
ghost use Rattle.capi.specs.Scripts.{script_asks, handed};
ghost use Rattle.capi.specs.Playing.{PlayFinds, PlayedOn};

use crate::answers::{JudgeAnswer, ScriptAnswer, judge_answer};
use crate::entries::fill_entries;
use crate::play_script::play_script;
use crate::script::Script;
use automaton::{Density, Rule};
use bench::{Break, Draft, Verdict};
use criterion::MOST_SHOWN;
use fault::{Fault, Stop};
use preset::{Loaded, Sent};
use preset_bench::draft;

// Judges a drafted bench, and plays a script where it holds. There is room for the answers.
fn play_draft<C: Sent, R: Rule + Drop, D: Density<C> + Drop>(
    draft: Draft<C, R, D>,
    script: Script<'_>,
    crossings: &mut [C],
    opening: &mut [C],
    crossed: &mut [C],
    touched: &mut [C],
    cells: &mut [u8],
    answers: &mut [ScriptAnswer],
) -> Result<Option<Break<C>>, Fault>
    requires { length script.calls.now ≤ length answers.old }
    ensures { let b = draft_bench draft in
        PlayFinds C.kind C.sending b.rule b.density
        (handed C.kind cells.old opening.old crossed.old touched.old) (script_asks script.entry)
        (judge_found b (length crossings.old) most_shown)
        cells.new answers.old answers.new result }
{
    let mut ring = [0u8; MOST_SHOWN];
    match draft.judge(crossings, &mut ring)? {
        Verdict::Holds(bench) => {
            play_script(bench, script, opening, crossed, touched, cells, answers);
            Ok(None)
        }
        Verdict::Breaks(_bench, found) => Ok(Some(found)),
    }
}

// Judges a preset whose density is some charges, once there is room for the answers, and plays a script where it holds.
fn play_tables<C: Sent>(
    preset: Loaded<'_>,
    charges: &[C],
    script: Script<'_>,
    crossings: &mut [C],
    opening: &mut [C],
    crossed: &mut [C],
    touched: &mut [C],
    cells: &mut [u8],
    answers: &mut [ScriptAnswer],
) -> Result<Option<Break<C>>, Fault>
    ensures { let h = preset.entry.header in
        let letters = preset.entry.letters.now in
        let b = preset_bench C.kind h letters charges.now in
        let found = preset_found C.kind h letters charges.now (length crossings.old) most_shown in
        PlayFinds C.kind C.sending b.rule b.density
        (handed C.kind cells.old opening.old crossed.old touched.old) (script_asks script.entry)
        (with_answers (length script.entry.calls.now) (length answers.old) found)
        cells.new answers.old answers.new result }
{
    Stop::ShortStrip.unless(script.calls.len() <= answers.len())?;
    let draft = draft(preset, charges)?;
    play_draft(
        draft, script, crossings, opening, crossed, touched, cells, answers,
    )
}

// The same for the entries of a preset, given a strip of charges for them. The strips have room for any preset's
// entries and crossings.
pub(crate) fn play_charges<C: Sent>(
    preset: Loaded<'_>,
    script: Script<'_>,
    charges: &mut [C],
    crossings: &mut [C],
    opening: &mut [C],
    crossed: &mut [C],
    touched: &mut [C],
    cells: &mut [u8],
    answers: &mut [ScriptAnswer],
) -> JudgeAnswer
    requires kind { preset.kind ≡ C.sending.named }
    requires charge_room { length charges.old ≡ most_words }
    requires crossing_room { length crossings.old ≡ most_words }
    ensures { PlayedOn C.kind C.sending (preset_of preset.entry) (script_asks script.entry)
        (handed C.kind cells.old opening.old crossed.old touched.old)
        cells.new answers.old answers.new result }
{
    fill_entries(preset, charges);
    let charges = &charges[..preset.entries.len()];
    let found = play_tables(
        preset, charges, script, crossings, opening, crossed, touched, cells, answers,
    );
    judge_answer(found)
}
