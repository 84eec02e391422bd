// Strips as text.
use crate::kind::Tried;
use fault::Fault;
use std::io;
use std::io::Write;

// What rings are filled with before a call.
pub const MARK: u8 = 9;

pub(crate) fn write_fault<W: Write>(out: &mut W, word: &str, fault: Fault) -> io::Result<()> {
    let code = fault.stop.code();
    let place = fault.place;
    writeln!(out, "{word} {code} {place}")
}

pub(crate) fn write_charges<C: Tried, W: Write>(out: &mut W, charges: &[C]) -> io::Result<()> {
    for (i, charge) in charges.iter().enumerate() {
        let comma = if i > 0 { "," } else { "" };
        let word = charge.word();
        write!(out, "{comma}{word}")?;
    }
    Ok(())
}

// The end of a line: whether what a call may not have written is as it was.
pub(crate) fn write_end<C: Tried, W: Write>(
    out: &mut W,
    charges: &[C],
    letters: &[u8],
) -> io::Result<()> {
    let clean = charges.iter().all(|charge| charge.same(C::mark()))
        && letters.iter().all(|letter| *letter == MARK);
    let word = if clean { "clean" } else { "dirty" };
    writeln!(out, " {word}")
}
