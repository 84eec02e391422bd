// Calls of a player on its own strips, and on others.
use crate::kind::Played;
use crate::numbers::{to_index, to_letter};
use crate::script::to_call;
use crate::show::{write_answer, write_charge, write_fault};
use crate::strips::CaseStrips;
use automaton::{Density, Rule};
use bench::{Break, Draft, Verdict};
use fault::Fault;
use player::{Answer, Call, Performed, Player, PlayerOf, Playing, perform};
use std::io;
use std::io::Write;

// How much of each strip a call is lent.
fn lent<T>(strip: &mut [T], room: i64) -> &mut [T] {
    let room = to_index(room).min(strip.len());
    &mut strip[..room]
}

fn done<C: Played>(done: Result<(), Fault>) -> Answer<C> {
    match done {
        Ok(()) => Answer::Done,
        Err(fault) => Answer::Refused(fault),
    }
}

// A call on the open ring, with a part of each strip. The rooms are of the cells, the spare strip, and the opening,
// crossed and touched charges.
fn ask<C: Played, R: Rule, D: Density<C>>(
    playing: &Playing<C, R, D>,
    call: Call<'_>,
    strips: &mut CaseStrips<C>,
    rooms: [i64; 5],
) -> Option<Answer<C>> {
    let cells = lent(&mut strips.cells, rooms[0]);
    let spare = lent(&mut strips.spare, rooms[1]);
    let opening = lent(&mut strips.opening, rooms[2]);
    let crossed = lent(&mut strips.crossed, rooms[3]);
    let touched = lent(&mut strips.touched, rooms[4]);
    match call {
        Call::Touch { site, letter } => Some(done(playing.touch(site, letter, cells, touched))),
        Call::Step => Some(done(playing.step(cells, spare, crossed))),
        Call::Read { site } => Some(match playing.read(site, cells, opening, crossed, touched) {
            Ok(reading) => Answer::Reading(reading),
            Err(fault) => Answer::Refused(fault),
        }),
        _ => None,
    }
}

// Puts a letter into a cell as a caller may, with no call: it need not be a letter of the ring.
fn spoil(cells: &mut [u8], place: i64, letter: i64) {
    if let Some(cell) = cells.get_mut(to_index(place)) {
        *cell = to_letter(letter);
    }
}

fn write_break<C: Played, W: Write>(out: &mut W, found: Break<C>) -> io::Result<()> {
    let Break {
        word,
        len,
        first,
        second,
    } = found;
    write!(out, "breaks {word} {len}")?;
    write_charge(out, first)?;
    write_charge(out, second)?;
    writeln!(out)
}

// What is called after the script, where a ring is open.
fn write_later<C: Played, R: Rule, D: Density<C>, W: Write>(
    out: &mut W,
    playing: &Playing<C, R, D>,
    strips: &mut CaseStrips<C>,
    numbers: &[i64],
) -> io::Result<()> {
    let [place, letter, rows @ ..] = numbers else {
        return Ok(());
    };
    spoil(&mut strips.cells, *place, *letter);
    for row in rows.chunks_exact(8) {
        let call = to_call(&[], row[0], row[1], row[2]);
        let rooms = [row[3], row[4], row[5], row[6], row[7]];
        write_answer(out, ask(playing, call, strips, rooms))?;
    }
    strips.write_played(out)
}

// What comes of a bench that holds.
fn write_holding<C: Played, R: Rule + Drop, D: Density<C> + Drop, W: Write>(
    out: &mut W,
    player: PlayerOf<C, R, D>,
    strips: &mut CaseStrips<C>,
    later: &[i64],
) -> io::Result<()> {
    match player {
        Player::Playing(playing) => {
            writeln!(out, "holds open")?;
            strips.write(out)?;
            write_later(out, &playing, strips, later)
        }
        Player::Idle(_) => {
            writeln!(out, "holds idle")?;
            strips.write(out)
        }
    }
}

fn write_verdict<C: Played, R: Rule + Drop, D: Density<C> + Drop, W: Write>(
    out: &mut W,
    verdict: Performed<C, R, D>,
    strips: &mut CaseStrips<C>,
    later: &[i64],
) -> io::Result<()> {
    match verdict {
        Verdict::Holds(player) => write_holding(out, player, strips, later),
        Verdict::Breaks(_bench, found) => {
            write_break(out, found)?;
            strips.write(out)
        }
    }
}

// Judges a draft, and where it holds plays the script, and prints what comes of it.
pub(crate) fn write_performed<C: Played, R: Rule + Drop, D: Density<C> + Drop, W: Write>(
    out: &mut W,
    draft: Draft<C, R, D>,
    script: &[Call<'_>],
    strips: &mut CaseStrips<C>,
    later: &[i64],
) -> io::Result<()> {
    match perform(
        draft,
        script,
        &mut strips.crossings,
        &mut strips.ring,
        &mut strips.cells,
        &mut strips.spare,
        &mut strips.opening,
        &mut strips.crossed,
        &mut strips.touched,
        &mut strips.answers,
    ) {
        Ok(verdict) => write_verdict(out, verdict, strips, later),
        Err(refused) => {
            write_fault(out, refused.fault)?;
            strips.write(out)
        }
    }
}
