// A script played on a bench that holds.
ghost use Rattle.std.specs.Prelude.{◌≡◌, ◌≤◌, length};
ghost use Rattle.std.specs.Option.{option_map};
ghost use Rattle.bench.specs.States.{holding_bench};
ghost use Rattle.player.specs.Answers.{answer_meant, open_cells};
ghost use Rattle.player.specs.Promises.{all_strips, meant, player_ring, player_holding, ring_len};
ghost use Rattle.fault.specs.Refusals.{refusal};
ghost use Rattle.capi.specs.Scripts.{asks, script_asks, handed, refused_open, Obeys};
ghost use Rattle.capi.specs.Playing.{Answered};

use crate::answers::{ScriptAnswer, script_answer};
use crate::script::Script;
use automaton::{Density, Rule};
use bench::Holding;
use charge::Charge;
use fault::Fault;
use fault::limits::MOST_CELLS;
use player::{Answer, Call, Player, PlayerOf, obey};
use preset::Sent;

// What an open that is refused is answered.
fn refused_open<C: Charge, R: Rule, D: Density<C>>(
    player: &PlayerOf<C, R, D>,
    fault: Fault,
) -> Option<Answer<C>>
    ensures { option_map (answer_meant C.kind) result
        ≡ refused_open (open_cells ring_len player.now) (refusal fault) }
{
    match player {
        Player::Idle(_) => Some(Answer::Refused(fault)),
        Player::Playing(_) => None,
    }
}

// Answers what a struct asks.
fn answer_one<C: Charge, R: Rule, D: Density<C>>(
    player: PlayerOf<C, R, D>,
    asked: Result<Option<Call<'_>>, Fault>,
    cells: &mut [u8],
    spare: &mut [u8],
    opening: &mut [C],
    crossed: &mut [C],
    touched: &mut [C],
) -> (PlayerOf<C, R, D>, Option<Answer<C>>)
    ensures obeys { let ring = player_ring player in
        Obeys C.kind ring.bench.rule ring.bench.density ring.len
        (meant C.kind (all_strips cells.old spare.old opening.old crossed.old touched.old))
        (asks asked.entry) (option_map (answer_meant C.kind) result.1)
        (meant C.kind (all_strips cells.new spare.new opening.new crossed.new touched.new))
        (open_cells ring_len result.0) }
    ensures bench { player_holding result.0 ≡ player_holding player }
{
    match asked {
        Ok(Some(call)) => obey(player, call, cells, spare, opening, crossed, touched),
        Ok(None) => (player, None),
        Err(fault) => {
            let answer = refused_open(&player, fault);
            (player, answer)
        }
    }
}

// Answers each struct of a script, in the order of the script.
pub(crate) fn play_script<C: Sent, R: Rule + Drop, D: Density<C> + Drop>(
    bench: Holding<C, R, D>,
    script: Script<'_>,
    opening: &mut [C],
    crossed: &mut [C],
    touched: &mut [C],
    cells: &mut [u8],
    answers: &mut [ScriptAnswer],
)
    requires { length script.calls.now ≤ length answers.old }
    ensures { let b = holding_bench bench in
        Answered C.kind C.sending b.rule b.density
        (handed C.kind cells.old opening.old crossed.old touched.old)
        (script_asks script.entry) cells.new answers.old answers.new }
{
    let mut spare = [0u8; MOST_CELLS];
    let mut player = Player::Idle(bench);
    for i in 0..script.calls.len() {
        let asked = script.calls[i].asked(script.rings);
        let (next, answer) = answer_one(
            player, asked, cells, &mut spare, opening, crossed, touched,
        );
        player = next;
        answers[i] = script_answer(answer);
    }
}
