// Benches of presets of any kind, judged, and what is played on those that hold.
use crate::files::{read_file, read_input};
use crate::output::{print_text, refuse};
use crate::ring_strips::RingStrips;
use crate::rows::{RingRun, run_meters, run_rings};
use crate::session;
use crate::trouble::Trouble;
use bench::Verdict;
use cli::{BreaksText, Command, Outcome, RingDigits, read_script};
use criterion::MOST_SHOWN;
use fault::limits::MOST_WORDS;
use player::Player;
use preset::{Loaded, PresetStrips, Sent, by_kind};
use preset_bench::{draft, fill_charges};

// What is done on a bench that holds.
#[derive(Clone, Copy)]
enum Playable<'a> {
    Script(&'a [Command<'a>]),
    Meters(RingRun<'a>),
}

// Judges a preset of one kind, and plays on its bench if it holds.
fn play_charges<'a, C: Sent>(
    rt: &HostRuntime,
    path: &str,
    preset: Loaded<'_>,
    what: Playable<'_>,
) -> Result<Outcome, Trouble<'a>> {
    let mut charges = vec![in rt.alloc(); C::zero(); preset.entries.len()]?;
    if let Err(fault) = fill_charges(preset.entries, &mut charges) {
        return refuse(rt, fault);
    }
    let draft = match draft(preset, &charges) {
        Ok(draft) => draft,
        Err(fault) => return refuse(rt, fault),
    };
    let mut crossings = vec![in rt.alloc(); C::zero(); MOST_WORDS as usize]?;
    let mut shown = [0u8; MOST_SHOWN];
    let player = match draft.judge(&mut crossings, &mut shown) {
        Ok(Verdict::Holds(bench)) => Player::Idle(bench),
        Ok(Verdict::Breaks(_, _)) => {
            print_text(rt, BreaksText { path })?;
            return Ok(Outcome::Undone);
        }
        Err(refused) => return refuse(rt, refused.fault),
    };
    let mut table = RingStrips::new(rt.alloc())?;
    match what {
        Playable::Script(script) => session::play(rt, &mut table, player, script),
        Playable::Meters(run) => run_meters(rt, &mut table, player, run),
    }
}

// The same of any kind.
fn play_kind<'a>(
    rt: &HostRuntime,
    path: &str,
    preset: Loaded<'_>,
    what: Playable<'_>,
) -> Result<Outcome, Trouble<'a>> {
    by_kind!(preset.kind, play_charges::<_>(rt, path, preset, what))
}

// Plays the script on standard input on a preset that was read.
fn play_input<'a>(
    rt: &HostRuntime,
    path: &str,
    preset: Loaded<'_>,
) -> Result<Outcome, Trouble<'a>> {
    let text = read_input(rt)?;
    let script = read_script(rt.alloc(), &text)?;
    play_kind(rt, path, preset, Playable::Script(&script))
}

// Plays the script on standard input on a preset. It is not read where the preset is refused.
pub(crate) fn play<'a>(rt: &HostRuntime, path: &'a str) -> Result<Outcome, Trouble<'a>> {
    let bytes = read_file(rt, path)?;
    let mut strips = PresetStrips::new();
    match strips.read(&bytes) {
        Ok(preset) => play_input(rt, path, preset),
        Err(fault) => refuse(rt, fault),
    }
}

// Runs a ring on a preset.
pub(crate) fn run<'a>(
    rt: &HostRuntime,
    path: &'a str,
    ring: RingDigits<'_>,
    steps: usize,
    meters: bool,
) -> Result<Outcome, Trouble<'a>> {
    let bytes = read_file(rt, path)?;
    let ring = ring.to_letters(rt.alloc())?;
    let run = RingRun { ring: &ring, steps };
    let mut strips = PresetStrips::new();
    match strips.read(&bytes) {
        Ok(preset) if meters => play_kind(rt, path, preset, Playable::Meters(run)),
        Ok(preset) => run_rings(rt, preset, run),
        Err(fault) => refuse(rt, fault),
    }
}
