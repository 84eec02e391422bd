// Answers and strips as text.
use crate::kind::Played;
use fault::Fault;
use player::{Answer, Reading};
use std::io;
use std::io::Write;

pub(crate) fn write_fault<W: Write>(out: &mut W, fault: Fault) -> io::Result<()> {
    let code = fault.stop.code();
    let place = fault.place;
    writeln!(out, "refused {code} {place}")
}

pub(crate) fn write_charge<C: Played, W: Write>(out: &mut W, charge: C) -> io::Result<()> {
    let (signed, plain) = charge.parts();
    write!(out, " {signed}:{plain}")
}

pub(crate) fn write_charges<C: Played, W: Write>(
    out: &mut W,
    name: &str,
    charges: &[C],
) -> io::Result<()> {
    write!(out, "{name}")?;
    for charge in charges {
        write_charge(out, *charge)?;
    }
    writeln!(out)
}

pub(crate) fn write_letters<W: Write>(out: &mut W, name: &str, letters: &[u8]) -> io::Result<()> {
    write!(out, "{name}")?;
    for letter in letters {
        write!(out, " {letter}")?;
    }
    writeln!(out)
}

fn write_reading<C: Played, W: Write>(out: &mut W, reading: Reading<C>) -> io::Result<()> {
    let Reading {
        opening,
        crossed,
        touched,
        now,
    } = reading;
    write!(out, "reading")?;
    write_charge(out, opening)?;
    write_charge(out, crossed)?;
    write_charge(out, touched)?;
    write_charge(out, now)?;
    writeln!(out)
}

// A call that the states do not allow has no answer.
pub(crate) fn write_answer<C: Played, W: Write>(
    out: &mut W,
    answer: Option<Answer<C>>,
) -> io::Result<()> {
    match answer {
        None => writeln!(out, "none"),
        Some(Answer::Done) => writeln!(out, "done"),
        Some(Answer::Reading(reading)) => write_reading(out, reading),
        Some(Answer::Refused(fault)) => write_fault(out, fault),
    }
}
