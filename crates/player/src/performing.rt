// Judging a drafted bench, and playing a script of calls on it where it holds.
ghost use Rattle.std.specs.Prelude.{map, length};
ghost use Rattle.bench.specs.Answers.{judge_said};
ghost use Rattle.bench.specs.States.{draft_bench};
ghost use Rattle.bench.specs.Verdicts.{lent};
ghost use Rattle.player.specs.Laws.{RefusalsFit, StepsOn};
ghost use Rattle.player.specs.Logs.{LogsTrue};
ghost use Rattle.player.specs.Answers.{call_meant};
ghost use Rattle.player.specs.Promises.{all_strips, meant, ring_len, HandsOnPlayer};
ghost use Rattle.player.specs.Whole.{JudgedFor, Performs, VerdictTrue, CrossingsTrue, LogTrue, cells_open};

use crate::call::{Answer, Call};
use crate::player::{PlayerOf, play};
use automaton::{Density, Rule};
use bench::{Breaking, Draft, Refused, Verdict};
use charge::Charge;
use fault::Stop;

/// A bench that was judged, and where it holds was played on: with no ring open, or with the one that the script left
/// open.
pub type Performed<C, R, D> = Verdict<C, PlayerOf<C, R, D>, Breaking<C, R, D>>;

// Judges a bench, and plays a script where it holds. Apart from `perform`, whose theorems need answers of their own.
fn perform_on<C: Charge, R: Rule, D: Density<C>>(
    draft: Draft<C, R, D>,
    script: &[Call<'_>],
    crossings: &mut [C],
    ring: &mut [u8],
    cells: &mut [u8],
    spare: &mut [u8],
    opening: &mut [C],
    crossed: &mut [C],
    touched: &mut [C],
    answers: &mut [Option<Answer<C>>],
) -> Result<Performed<C, R, D>, Refused<Draft<C, R, D>>>
    ensures judged { JudgedFor (length script.now) (length answers.old) (draft_bench draft)
        (lent crossings.old ring.old) result (lent crossings.new ring.new) }
    ensures handed { HandsOnPlayer draft result }
    ensures performs { Performs (draft_bench draft) (judge_said C.kind result) script.now
        (all_strips cells.old spare.old opening.old crossed.old touched.old)
        (all_strips cells.new spare.new opening.new crossed.new touched.new)
        answers.old answers.new (cells_open ring_len result) }
{
    if answers.len() < script.len() {
        return Err(Refused {
            state: draft,
            fault: Stop::ShortStrip.at(0),
        });
    }
    match draft.judge(crossings, ring) {
        Ok(Verdict::Holds(bench)) => Ok(Verdict::Holds(play(
            bench, script, cells, spare, opening, crossed, touched, answers,
        ))),
        Ok(Verdict::Breaks(bench, found)) => Ok(Verdict::Breaks(bench, found)),
        Err(refused) => Err(refused),
    }
}

/// Judges a bench, and where it holds answers each call of a script, in the order of the script, as `obey` does: answer
/// i is that to call i, and `None` where the state did not allow the call.
///
/// `crossings` and `ring` are the strips of `Draft::judge`; the five strips after them are the player's, of any
/// lengths, which are refused call by call; `answers` has an entry a call. Where it has fewer the draft comes back,
/// refused by `Stop::ShortStrip` at place 0, and so it does where a strip of the judge is too short.
///
/// Past the script's answers, and past the longest ring that it opened, what answers and charges there were stay.
/// Unless the bench holds, the player's strips and the answers stay as they were.
pub fn perform<C: Charge, R: Rule, D: Density<C>>(
    draft: Draft<C, R, D>,
    script: &[Call<'_>],
    crossings: &mut [C],
    ring: &mut [u8],
    cells: &mut [u8],
    spare: &mut [u8],
    opening: &mut [C],
    crossed: &mut [C],
    touched: &mut [C],
    answers: &mut [Option<Answer<C>>],
) -> Result<Performed<C, R, D>, Refused<Draft<C, R, D>>>
    ensures judged { JudgedFor (length script.now) (length answers.old) (draft_bench draft)
        (lent crossings.old ring.old) result (lent crossings.new ring.new) }
    ensures handed { HandsOnPlayer draft result }
    ensures performs { Performs (draft_bench draft) (judge_said C.kind result) script.now
        (all_strips cells.old spare.old opening.old crossed.old touched.old)
        (all_strips cells.new spare.new opening.new crossed.new touched.new)
        answers.old answers.new (cells_open ring_len result) }
    ensures verdict { VerdictTrue (draft_bench draft) (judge_said C.kind result) ring.new }
    ensures crossings { CrossingsTrue (draft_bench draft) (judge_said C.kind result)
        (map C.kind.means crossings.new) }
    ensures logs { LogsTrue C.kind }
    ensures log { LogTrue (draft_bench draft) (judge_said C.kind result) (map call_meant script.now)
        (meant C.kind (all_strips cells.old spare.old opening.old crossed.old touched.old)) }
    ensures laws { RefusalsFit C.kind × StepsOn C.kind }
{
    perform_on(
        draft, script, crossings, ring, cells, spare, opening, crossed, touched, answers,
    )
}
