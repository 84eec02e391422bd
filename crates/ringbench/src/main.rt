// The program: presets shown as text, text encoded as presets, presets judged and compared, and rings played on them.
// What the arguments and the scripts ask, and what is answered, are in the crate `cli`; the work is in the crates below
// it.
#![tactic(auto)]

mod files;
mod output;
mod playing;
mod ring_strips;
mod rows;
mod session;
mod trouble;

use crate::files::{arguments, is_same_file, read_file, write_file};
use crate::output::{complain, print_line, print_text};
use crate::playing::{play, run};
use crate::trouble::Trouble;
use cli::{Outcome, Request, USAGE, WrittenText, file_name, read_arguments};
use console::{encode_page, show_preset};
use report::{compare_line, crossings_page, judge_line};
use std::process::ExitCode;

fn show<'a>(rt: &HostRuntime, path: &'a str) -> Result<Outcome, Trouble<'a>> {
    let bytes = read_file(rt, path)?;
    match show_preset(rt.alloc(), &bytes) {
        Ok(page) => {
            print_text(rt, page)?;
            Ok(Outcome::Done)
        }
        Err(error) => complain(rt, error),
    }
}

fn encode<'a>(rt: &HostRuntime, from: &'a str, to: &'a str) -> Result<Outcome, Trouble<'a>> {
    let text = read_file(rt, from)?;
    if is_same_file(rt, from, to)? {
        return Err(Trouble::OwnText(to));
    }
    let bytes = match encode_page(rt.alloc(), &text) {
        Ok(bytes) => bytes,
        Err(error) => return Err(Trouble::text(from, error)),
    };
    let line = WrittenText {
        path: to,
        bytes: bytes.len(),
    };
    // made first, so that no file is written where there is no memory to tell of it
    let line = format!(in rt.alloc(); "{line}")?;
    write_file(rt, to, &bytes)?;
    print!(rt; "{line}")?;
    Ok(Outcome::Done)
}

fn judge_one<'a>(rt: &HostRuntime, word: &'a [u8]) -> Result<Outcome, Trouble<'a>> {
    let path = file_name(word)?;
    let bytes = read_file(rt, path)?;
    print_line(rt, judge_line(rt.alloc(), path, &bytes)?)
}

// Judges each preset. One that cannot be read or does not hold does not stop the others, but nothing more is said where
// nothing can be printed.
fn judge<'a>(rt: &HostRuntime, presets: &'a [Vec<u8>]) -> Result<Outcome, Trouble<'a>> {
    let mut all = Outcome::Done;
    for word in presets {
        let one = match judge_one(rt, word) {
            Err(Trouble::Output(error)) => return Err(Trouble::Output(error)),
            outcome => told(rt, outcome),
        };
        all = all.and(one);
    }
    Ok(all)
}

fn crossings<'a>(rt: &HostRuntime, path: &'a str) -> Result<Outcome, Trouble<'a>> {
    let bytes = read_file(rt, path)?;
    match crossings_page(rt.alloc(), &bytes) {
        Ok(page) => {
            print_text(rt, page.text)?;
            Ok(Outcome::so(page.good))
        }
        Err(error) => complain(rt, error),
    }
}

fn compare<'a>(rt: &HostRuntime, first: &'a str, second: &'a str) -> Result<Outcome, Trouble<'a>> {
    let bytes = read_file(rt, first)?;
    let others = read_file(rt, second)?;
    print_line(
        rt,
        compare_line(rt.alloc(), first, &bytes, second, &others)?,
    )
}

// Does what is asked.
fn obey<'a>(rt: &HostRuntime, request: Request<'a>) -> Result<Outcome, Trouble<'a>> {
    match request {
        Request::Help => {
            print_text(rt, USAGE)?;
            Ok(Outcome::Done)
        }
        Request::Show { preset } => show(rt, preset),
        Request::Encode { text, preset } => encode(rt, text, preset),
        Request::Judge { presets } => judge(rt, presets),
        Request::Crossings { preset } => crossings(rt, preset),
        Request::Compare { first, second } => compare(rt, first, second),
        Request::Play { preset } => play(rt, preset),
        Request::Run {
            preset,
            ring,
            steps,
            meters,
        } => run(rt, preset, ring, steps, meters),
    }
}

fn answer<'a>(rt: &HostRuntime, words: &'a [Vec<u8>]) -> Result<Outcome, Trouble<'a>> {
    obey(rt, read_arguments(words)?)
}

// Says what went wrong, if something did. Where standard error cannot be written there is no place left to say it.
fn told(rt: &HostRuntime, outcome: Result<Outcome, Trouble<'_>>) -> Outcome {
    match outcome {
        Ok(outcome) => outcome,
        Err(trouble) => {
            let _ = eprintln!(rt; "ringbench: {trouble}");
            Outcome::Undone
        }
    }
}

fn main(rt: HostRuntime) -> ExitCode {
    let outcome = match arguments(&rt) {
        Ok(words) => told(&rt, answer(&rt, &words)),
        Err(error) => told(&rt, Err(Trouble::from(error))),
    };
    outcome.status()
}
