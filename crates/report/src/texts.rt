// The lines of verdicts, comparisons and refusals.
ghost use Rattle.std.specs.Prelude.{◌≡◌, true, false, IfOk};
ghost use Rattle.fault.specs.Refusals.{refusal};
ghost use Rattle.report.specs.Texts.{kinds_text, good_word, bad_word, refused_text, kept_text, finding_text, notation_of, verdict_text, verdict_good, ring_fits};
ghost use Rattle.report.specs.ReportLines.{LineIs};

use crate::report_line::{LineNotation, Question, ReportLine};
use automaton::ShownLetters;
use bench::Break;
use fault::Fault;
use preset::Entry;
use std::alloc::{AllocError, Global};

impl Question {
    // The word of a question that is answered by yes.
    fn good_word(self) -> &'static str
        ensures { result.now ≡ good_word self }
    {
        match self {
            Question::Judge => "holds",
            Question::Compare => "agree",
        }
    }

    // The word of a question that is answered by no.
    fn bad_word(self) -> &'static str
        ensures { result.now ≡ bad_word self }
    {
        match self {
            Question::Judge => "breaks",
            Question::Compare => "differ",
        }
    }
}

// A question about a subject, and what the words of its answer are made of.
#[derive(Clone, Copy)]
pub(crate) struct Asked<'a> {
    pub question: Question,
    pub subject: &'a str,
    pub notation: LineNotation,
}

impl Asked<'_> {
    // The line of a question that is answered by yes.
    fn kept_line(self, alloc: Global) -> Result<ReportLine, AllocError>
        ensures { IfOk result (LineIs (kept_text self.entry.question self.entry.subject.now) true) }
    {
        let subject = self.subject;
        let verdict = self.question.good_word();
        let text = format!(in alloc; "{subject}\t{verdict}")?;
        Ok(ReportLine { text, good: true })
    }

    // The line of a failing word and the ring that shows it.
    fn finding_line(
        self,
        alloc: Global,
        ring: &[u8],
        finding: Break<Entry>,
    ) -> Result<ReportLine, AllocError>
        ensures { let asked = self.entry in
            let notation = notation_of asked.notation in
            let text = finding_text asked.question asked.subject.now notation ring.now finding in
            IfOk result (LineIs text false) }
    {
        let subject = self.subject;
        let verdict = self.question.bad_word();
        let word = self.notation.word(finding.word);
        let cells = ShownLetters { letters: ring };
        let first = self.notation.entry(finding.first);
        let second = self.notation.entry(finding.second);
        let text = format!(in alloc; "{subject}\t{verdict}\t{word}\t{cells}\t{first}\t{second}")?;
        Ok(ReportLine { text, good: false })
    }

    // The line of what was found on a strip that begins with the ring that shows it.
    pub(crate) fn line(
        self,
        alloc: Global,
        strip: &[u8],
        found: Result<Option<Break<Entry>>, Fault>,
    ) -> Result<ReportLine, AllocError>
        requires { ring_fits found strip.now }
        ensures { let asked = self.entry in
            let notation = notation_of asked.notation in
            let text = verdict_text asked.question asked.subject.now notation strip.now found in
            IfOk result (LineIs text (verdict_good found)) }
    {
        match found {
            Err(fault) => refused_line(alloc, self.subject, fault),
            Ok(None) => self.kept_line(alloc),
            Ok(Some(finding)) => self.finding_line(alloc, &strip[..finding.len], finding),
        }
    }
}

// The line of a call that was refused.
pub(crate) fn refused_line(
    alloc: Global,
    subject: &str,
    fault: Fault,
) -> Result<ReportLine, AllocError>
    ensures { IfOk result (LineIs (refused_text subject.now (refusal fault)) false) }
{
    let code = fault.stop.code();
    let place = fault.place;
    let text = format!(in alloc; "{subject}\trefused\t{code}\t{place}")?;
    Ok(ReportLine { text, good: false })
}

// The line of two presets whose kinds of charge differ.
pub(crate) fn kinds_line(alloc: Global, subject: &str) -> Result<ReportLine, AllocError>
    ensures { IfOk result (LineIs (kinds_text subject.now) false) }
{
    let text = format!(in alloc; "{subject}\tkinds differ")?;
    Ok(ReportLine { text, good: false })
}
