// A verdict's text, and what it is made of.
ghost use Rattle.std.specs.Prelude.{◌≡◌, ◌≤◌};

use automaton::ShownWord;
use charge::ChargeKind;
use console::EntryWord;
use preset::Entry;

/// A text, and whether it tells that what was asked is so. There is a text in either case, so the two are no `Option`.
#[derive(Drop)]
pub struct ReportLine {
    /// A line without its end, or a page of whole lines.
    pub text: String,
    /// Whether a preset holds, or two densities agree.
    pub good: bool,
}

// What was asked: whether a rule keeps its total, or whether two densities have the same totals.
#[derive(Clone, Copy)]
pub(crate) enum Question {
    Judge,
    Compare,
}

// The kind of charge, the alphabet size, and how many letters the words have.
#[derive(Clone, Copy)]
pub(crate) struct LineNotation {
    pub kind: ChargeKind,
    pub q: usize,
    pub m: usize,
    ghost some: { 1 ≤ q },
}

impl LineNotation {
    // The word of a code.
    pub(crate) fn word(self, code: usize) -> ShownWord
        ensures q { result.q ≡ self.q }
        ensures m { result.m ≡ self.m }
        ensures code { result.code ≡ code }
    {
        ShownWord {
            q: self.q,
            m: self.m,
            code,
        }
    }

    // An entry of the kind.
    pub(crate) fn entry(self, entry: Entry) -> EntryWord
        ensures { result ≡ record { kind = self.kind; entry = entry } }
    {
        EntryWord {
            kind: self.kind,
            entry,
        }
    }
}
