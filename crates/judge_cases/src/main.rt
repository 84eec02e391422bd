// Reads calls of judge, compare, next_ring and total as lines of numbers, makes them, and prints what they answer and
// write. The input and the expected output are made by tools/make_judge_cases.py, which has a judge of its own;
// tools/judge_lines.py says how the lines are written.
#![tactic(auto)]

mod call;
mod density;
mod error;
mod kind;
mod numbers;
mod rule;
mod show;
mod strips;

use crate::call::write_case;
use crate::numbers::Numbers;
use std::io;
use std::io::{BufRead, BufReader, BufWriter, Write};

fn run(rt: &HostRuntime) -> io::Result<()> {
    let alloc = rt.alloc();
    let mut out = BufWriter::new(alloc, rt.stdout())?;
    for line in BufReader::new(alloc, rt.stdin())?.lines(alloc) {
        let line = line?;
        let mut numbers = Numbers::parse(alloc, line.as_str())?;
        write_case(alloc, &mut out, &mut numbers)?;
    }
    out.flush()
}

fn main(rt: HostRuntime) -> anyhow::Result<()> {
    run(&rt)?;
    Ok(())
}
