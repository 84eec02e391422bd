// A bench that holds, as calls move it from state to state.
ghost use Rattle.std.specs.Prelude.{◌≡◌, ◌≤◌, length, Ok};
ghost use Rattle.bench.specs.States.{holding_bench};
ghost use Rattle.bench.specs.Verdicts.Judgement.{holds};
ghost use Rattle.player.specs.Answers.{call_meant, answer_meant, done_said, read_said, done_or_refused, read_or_refused, open_cells};
ghost use Rattle.player.specs.Logs.{LogsTrueOn};
ghost use Rattle.player.specs.Promises.{all_strips, ring_on, ring_len, open_ring, player_ring, player_holding, holding_under};
ghost use Rattle.player.specs.Obeying.{ObeysOn};
ghost use Rattle.player.specs.Whole.{Performs};

use crate::call::{Answer, Call};
use crate::meters::Reading;
use crate::playing::Playing;
use automaton::{Density, Rule};
use bench::Holding;
use charge::Charge;
use fault::Fault;

/// A bench that holds, in one of two states.
#[derive(Drop)]
pub enum Player<H, P> {
    /// No ring is open on it.
    Idle(H),
    /// A ring is open on it.
    Playing(P),
}

/// A holding bench in either state: what `obey` takes and gives back, and what `perform` leaves.
pub type PlayerOf<C, R, D> = Player<Holding<C, R, D>, Playing<C, R, D>>;

fn done_or_refused<C: Charge>(done: Result<(), Fault>) -> Answer<C>
    ensures meaning { answer_meant C.kind result ≡ done_said C.kind done }
    ensures is { result ≡ done_or_refused done }
{
    match done {
        Ok(()) => Answer::Done,
        Err(fault) => Answer::Refused(fault),
    }
}

fn read_or_refused<C: Charge>(read: Result<Reading<C>, Fault>) -> Answer<C>
    ensures meaning { answer_meant C.kind result ≡ read_said C.kind read }
    ensures is { result ≡ read_or_refused read }
{
    match read {
        Ok(reading) => Answer::Reading(reading),
        Err(fault) => Answer::Refused(fault),
    }
}

// Answers a call where no ring is open: only open is allowed.
fn obey_idle<C: Charge, R: Rule, D: Density<C>>(
    bench: Holding<C, R, D>,
    call: Call<'_>,
    cells: &mut [u8],
    spare: &[u8],
    opening: &mut [C],
    crossed: &mut [C],
    touched: &mut [C],
) -> (PlayerOf<C, R, D>, Option<Answer<C>>)
    ensures obeys { ObeysOn (ring_on bench 0) (call_meant call.entry)
        (all_strips cells.old spare.now opening.old crossed.old touched.old) result.1
        (all_strips cells.new spare.now opening.new crossed.new touched.new)
        (open_cells ring_len result.0) }
    ensures bench { player_holding result.0 ≡ bench }
{
    let Call::Open(ring) = call else {
        return (Player::Idle(bench), None);
    };
    match Playing::open(bench, ring, cells, opening, crossed, touched) {
        Ok(playing) => (Player::Playing(playing), Some(Answer::Done)),
        Err(refused) => (
            Player::Idle(refused.state),
            Some(Answer::Refused(refused.fault)),
        ),
    }
}

// Answers a call where a ring is open: any but open is allowed.
fn obey_playing<C: Charge, R: Rule, D: Density<C>>(
    playing: Playing<C, R, D>,
    call: Call<'_>,
    cells: &mut [u8],
    spare: &mut [u8],
    opening: &mut [C],
    crossed: &mut [C],
    touched: &mut [C],
) -> (PlayerOf<C, R, D>, Option<Answer<C>>)
    ensures obeys { ObeysOn (open_ring playing) (call_meant call.entry)
        (all_strips cells.old spare.old opening.old crossed.old touched.old) result.1
        (all_strips cells.new spare.new opening.new crossed.new touched.new)
        (open_cells ring_len result.0) }
    ensures bench { player_holding result.0 ≡ holding_under playing }
{
    match call {
        Call::Open(_) => (Player::Playing(playing), None),
        Call::Touch { site, letter } => {
            let answer = done_or_refused(playing.touch(site, letter, cells, touched));
            (Player::Playing(playing), Some(answer))
        }
        Call::Step => {
            let answer = done_or_refused(playing.step(cells, spare, crossed));
            (Player::Playing(playing), Some(answer))
        }
        Call::Read { site } => {
            let answer = read_or_refused(playing.read(site, cells, opening, crossed, touched));
            (Player::Playing(playing), Some(answer))
        }
        Call::Close => (Player::Idle(playing.close()), Some(Answer::Done)),
    }
}

/// Answers one call. Where no ring is open, only an open is allowed, and where one is, all but an open: a call that the
/// state does not allow has no answer and does nothing. What is refused, at which place, and what is written is as each
/// call of `Playing` has it; of the five strips a call looks only at those that it takes there.
///
/// An open that is refused leaves no ring open, and every other refusal leaves the ring open. The bench holds, so each
/// line of every log of it without gaps is true.
#[tactic(auto, using(crate::proofs::HoldingLogs::holding_logs))]
pub fn obey<C: Charge, R: Rule, D: Density<C>>(
    player: PlayerOf<C, R, D>,
    call: Call<'_>,
    cells: &mut [u8],
    spare: &mut [u8],
    opening: &mut [C],
    crossed: &mut [C],
    touched: &mut [C],
) -> (PlayerOf<C, R, D>, Option<Answer<C>>)
    ensures obeys { ObeysOn (player_ring player) (call_meant call.entry)
        (all_strips cells.old spare.old opening.old crossed.old touched.old) result.1
        (all_strips cells.new spare.new opening.new crossed.new touched.new)
        (open_cells ring_len result.0) }
    ensures bench { player_holding result.0 ≡ player_holding player }
    ensures logs { LogsTrueOn (player_ring player).bench }
{
    match player {
        Player::Idle(bench) => obey_idle(bench, call, cells, spare, opening, crossed, touched),
        Player::Playing(playing) => {
            obey_playing(playing, call, cells, spare, opening, crossed, touched)
        }
    }
}

// Answers each call of a script.
pub(crate) fn play<C: Charge, R: Rule, D: Density<C>>(
    bench: Holding<C, R, D>,
    script: &[Call<'_>],
    cells: &mut [u8],
    spare: &mut [u8],
    opening: &mut [C],
    crossed: &mut [C],
    touched: &mut [C],
    answers: &mut [Option<Answer<C>>],
) -> PlayerOf<C, R, D>
    requires { length script.now ≤ length answers.old }
    ensures bench { player_holding result ≡ bench }
    ensures performs { Performs (holding_bench bench) (Ok holds) script.now
        (all_strips cells.old spare.old opening.old crossed.old touched.old)
        (all_strips cells.new spare.new opening.new crossed.new touched.new)
        answers.old answers.new (open_cells ring_len result) }
{
    let mut player = Player::Idle(bench);
    for (i, call) in script.iter().enumerate() {
        let (next, answer) = obey(player, *call, cells, spare, opening, crossed, touched);
        player = next;
        answers[i] = answer;
    }
    player
}
