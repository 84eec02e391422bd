// A ring that is run on a preset, a row a step.
use crate::output::{print_text, refuse};
use crate::ring_strips::{PresetPlayer, RingStrips};
use crate::trouble::Trouble;
use automaton::{TableRule, next_ring};
use charge::Voices;
use cli::{Outcome, RingRow};
use player::{Answer, Call};
use preset::{Loaded, Sent};
use std::mem;

// A ring and for how many steps it is run.
#[derive(Clone, Copy)]
pub(crate) struct RingRun<'a> {
    pub ring: &'a [u8],
    pub steps: usize,
}

// Prints the ring and its later rings. The rule need not keep a total.
pub(crate) fn run_rings<'a>(
    rt: &HostRuntime,
    preset: Loaded<'_>,
    run: RingRun<'_>,
) -> Result<Outcome, Trouble<'a>> {
    let header = preset.header;
    let mut rule = TableRule::zero();
    if let Err(fault) = rule.fill(header.q, header.n, header.l, preset.letters) {
        return refuse(rt, fault);
    }
    let mut cells = run.ring.to_vec(rt.alloc())?;
    let mut later = run.ring.to_vec(rt.alloc())?;
    for _ in 0..=run.steps {
        // the next ring first, since it tells whether there is one to print
        if let Err(fault) = next_ring(&rule, &cells, &mut later) {
            return refuse(rt, fault);
        }
        let row: RingRow<'_, Voices> = RingRow {
            cells: &cells,
            crossed: &[],
        };
        print_text(rt, row)?;
        mem::swap(&mut cells, &mut later);
    }
    Ok(Outcome::Done)
}

// Prints the ring and its later rings with what has crossed into each site, as a player's strips hold them.
pub(crate) fn run_meters<'a, C: Sent>(
    rt: &HostRuntime,
    table: &mut RingStrips<C>,
    player: PresetPlayer<'_, C>,
    run: RingRun<'_>,
) -> Result<Outcome, Trouble<'a>> {
    let mut player = player;
    let mut call = Call::Open(run.ring);
    for _ in 0..=run.steps {
        let (next, answer) = table.obey(player, call);
        player = next;
        if let Some(Answer::Refused(fault)) = answer {
            return refuse(rt, fault);
        }
        let sites = run.ring.len();
        let row = RingRow {
            cells: front(&table.cells, sites),
            crossed: front(&table.crossed, sites),
        };
        print_text(rt, row)?;
        call = Call::Step;
    }
    Ok(Outcome::Done)
}

// The front of a strip.
fn front<T>(strip: &[T], len: usize) -> &[T] {
    strip.split_at(len.min(strip.len())).0
}
