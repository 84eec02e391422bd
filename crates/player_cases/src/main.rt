// Plays scripts of calls on rings, a line each: judges the bench of the line and plays the script on it where it holds,
// and prints what was answered and what the strips hold. The input and the expected output are made by
// tools/make_player_cases.py, which has a player of its own; tools/player_lines.py says how the lines are written.
#![tactic(auto)]

mod case;
mod kind;
mod numbers;
mod playing;
mod script;
mod show;
mod strips;

use crate::case::write_case;
use std::io::{BufRead, BufReader, BufWriter, Write};

fn run(rt: &HostRuntime) -> anyhow::Result<()> {
    let alloc = rt.alloc();
    let mut out = BufWriter::new(alloc, rt.stdout())?;
    for line in BufReader::new(alloc, rt.stdin())?.lines(alloc) {
        let line = line?;
        write_case(alloc, &mut out, line.as_str())?;
    }
    out.flush()?;
    Ok(())
}

fn main(rt: HostRuntime) -> anyhow::Result<()> {
    run(&rt)
}
