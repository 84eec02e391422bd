// A script that is played on a preset. Each command is answered as it is made, so that no room is taken by how many
// calls there are.
use crate::output::print_text;
use crate::ring_strips::{PresetPlayer, RingStrips};
use crate::trouble::Trouble;
use charge::Charge;
use cli::{Command, Outcome, Reply, ReplyText};
use player::{Answer, Reading};
use preset::Sent;
use std::alloc::{AllocError, Global};

// Makes the calls of a command that is one call, or some steps.
fn make_calls<'a, C: Charge>(
    alloc: Global,
    table: &mut RingStrips<C>,
    player: PresetPlayer<'a, C>,
    command: Command<'_>,
) -> Result<(PresetPlayer<'a, C>, Option<Answer<C>>), AllocError> {
    let ring = match command {
        Command::Open(digits) => digits.to_letters(alloc)?,
        _ => Vec::new(alloc),
    };
    match (command, command.call(&ring)) {
        (_, Some(call)) => Ok(table.obey(player, call)),
        (Command::Steps(count), None) => Ok(table.step(player, count)),
        (_, None) => Ok((player, None)),
    }
}

// Answers a command, and prints the answer.
fn answer<'a, 't, C: Sent>(
    rt: &HostRuntime,
    table: &mut RingStrips<C>,
    player: PresetPlayer<'a, C>,
    readings: &mut Vec<Reading<C>>,
    command: Command<'_>,
) -> Result<PresetPlayer<'a, C>, Trouble<'t>> {
    match command {
        Command::Meters => {
            let player = table.read_all(player, readings)?;
            let reply = Reply::meters(readings);
            print_text(rt, ReplyText { command, reply })?;
            Ok(player)
        }
        Command::Arc { site, len } => {
            let player = table.read_all(player, readings)?;
            let reply = Reply::arc(readings, site, len);
            print_text(rt, ReplyText { command, reply })?;
            Ok(player)
        }
        _ => {
            let (player, answer) = make_calls(rt.alloc(), table, player, command)?;
            let reply = Reply::to(command.verb(), answer);
            print_text(rt, ReplyText { command, reply })?;
            Ok(player)
        }
    }
}

// Plays a script from where no ring is open.
pub(crate) fn play<'t, C: Sent>(
    rt: &HostRuntime,
    table: &mut RingStrips<C>,
    player: PresetPlayer<'_, C>,
    script: &[Command<'_>],
) -> Result<Outcome, Trouble<'t>> {
    let mut player = player;
    let mut readings = Vec::new(rt.alloc());
    for command in script {
        player = answer(rt, table, player, &mut readings, *command)?;
    }
    Ok(Outcome::Done)
}
