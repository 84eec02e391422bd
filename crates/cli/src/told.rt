// What the program tells beside answers: refusals, presets that break, and files that are written.
ghost use Rattle.std.specs.Prelude.{Some};
ghost use Rattle.cli.specs.Told.{refusal_page, breaks_line, written_line};

use fault::Fault;
use std::fmt;

/// A refusal in two lines: its code and place, and the sentence that says them.
#[derive(Clone, Copy)]
pub struct RefusalText {
    /// The refusal.
    pub fault: Fault,
}

impl fmt::Display for RefusalText {
    ghost output = { λ r. Some (refusal_page r.fault) };

    fn fmt<W: fmt::Write>(&self, f: &mut fmt::Formatter<W>) -> fmt::Result {
        let code = self.fault.stop.code();
        let place = self.fault.place;
        let sentence = self.fault;
        write!(f, "refused {code} {place}\n{sentence}\n")
    }
}

/// A line for a preset that is not played, since it does not hold.
#[derive(Clone, Copy)]
pub struct BreaksText<'a> {
    /// The preset file.
    pub path: &'a str,
}

impl fmt::Display for BreaksText<'_> {
    ghost output = { λ b. Some (breaks_line b.path.now) };

    fn fmt<W: fmt::Write>(&self, f: &mut fmt::Formatter<W>) -> fmt::Result {
        let path = self.path;
        writeln!(f, "{path}\tbreaks")
    }
}

/// A line for a file that was written.
#[derive(Clone, Copy)]
pub struct WrittenText<'a> {
    /// The file.
    pub path: &'a str,
    /// How many bytes it has.
    pub bytes: usize,
}

impl fmt::Display for WrittenText<'_> {
    ghost output = { λ w. Some (written_line w.path.now w.bytes) };

    fn fmt<W: fmt::Write>(&self, f: &mut fmt::Formatter<W>) -> fmt::Result {
        let path = self.path;
        let bytes = self.bytes;
        writeln!(f, "{path}: {bytes} bytes")
    }
}
