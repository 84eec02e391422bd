// What the calls answer, as structs of numbers. Code 0 and place 0 are no refusal; numbers that an answer does not have
// are 0.
ghost use Rattle.std.specs.Prelude.{◌≡◌, Some, Err};
ghost use Rattle.fault.specs.Answers.{plainly};
ghost use Rattle.fault.specs.Refusals.{refusal};
ghost use Rattle.player.specs.declared.call.Answer.TheVariants.{Reading as Reading_of};
ghost use Rattle.preset_bench.specs.Finds.{sent_found};
ghost use Rattle.capi.specs.Answers.{read_answer, unbroken, broken, judge_answer, no_reading, script_answer};

use bench::Break;
use fault::Fault;
use player::{Answer, Reading};
use preset::{Entry, Header, Sent};
use preset_bench::sent_found;

const NO_ENTRY: Entry = Entry {
    signed: 0,
    plain: 0,
};

const NO_HEADER: Header = Header {
    kind: 0,
    q: 0,
    n: 0,
    l: 0,
    k: 0,
};

// What a call of a script was answered, as a number.
const ANSWER_NONE: u32 = 0;

const ANSWER_DONE: u32 = 1;

const ANSWER_READING: u32 = 2;

const ANSWER_REFUSED: u32 = 3;

/// The header of a preset that was read, or a refusal.
#[derive(Clone, Copy)]
#[repr(C)]
pub struct ReadAnswer {
    /// The stop code of a refusal, 1 to 15, or 0.
    pub code: u32,
    /// The place of a refusal, an index of a byte.
    pub place: usize,
    /// The header; of a refusal, five zeros.
    pub header: Header,
}

/// A verdict, or a refusal.
#[derive(Clone, Copy)]
#[repr(C)]
pub struct JudgeAnswer {
    /// The stop code of a refusal, 1 to 15, or 0.
    pub code: u32,
    /// Whether some ring changes its total in a step. What follows the place is of that break.
    pub breaks: bool,
    /// The place of a refusal.
    pub place: usize,
    /// The code of the failing word.
    pub word: usize,
    /// How many cells the ring has that shows it.
    pub len: usize,
    /// That ring's total.
    pub before: Entry,
    /// Its total after one step.
    pub after: Entry,
}

/// The answer to a call of a script.
#[derive(Clone, Copy)]
#[repr(C)]
pub struct ScriptAnswer {
    /// 0 none, 1 done, 2 a reading of a site, 3 a refusal.
    pub answer: u32,
    /// The stop code of a refusal, or 0.
    pub code: u32,
    /// The place of a refusal.
    pub place: usize,
    /// Of a reading, the site's charge as the ring was opened.
    pub opening: Entry,
    /// Of a reading, what has crossed into the site.
    pub crossed: Entry,
    /// Of a reading, what touches have added.
    pub touched: Entry,
    /// Of a reading, the site's charge now.
    pub now: Entry,
}

// What reading answers.
pub(crate) fn read_answer(read: Result<Header, Fault>) -> ReadAnswer
    ensures { result ≡ read_answer (plainly read) }
{
    match read {
        Ok(header) => ReadAnswer {
            code: 0,
            place: 0,
            header,
        },
        Err(fault) => ReadAnswer {
            code: fault.stop.code() as u32,
            place: fault.place,
            header: NO_HEADER,
        },
    }
}

// The answer of a verdict without a break.
fn unbroken(code: u32, place: usize) -> JudgeAnswer
    ensures { result ≡ unbroken code place }
{
    JudgeAnswer {
        code,
        breaks: false,
        place,
        word: 0,
        len: 0,
        before: NO_ENTRY,
        after: NO_ENTRY,
    }
}

// The answer of a break.
fn broken(found: Break<Entry>) -> JudgeAnswer
    ensures { result ≡ broken found }
{
    JudgeAnswer {
        code: 0,
        breaks: true,
        place: 0,
        word: found.word,
        len: found.len,
        before: found.first,
        after: found.second,
    }
}

// The answer of a refusal.
pub(crate) fn refused(fault: Fault) -> JudgeAnswer
    ensures { result ≡ judge_answer (Err (refusal fault)) }
{
    unbroken(fault.stop.code() as u32, fault.place)
}

// What judging answers.
pub(crate) fn judge_answer<C: Sent>(found: Result<Option<Break<C>>, Fault>) -> JudgeAnswer
    ensures { result ≡ judge_answer (plainly (sent_found C.sending found)) }
{
    match sent_found(found) {
        Ok(None) => unbroken(0, 0),
        Ok(Some(found)) => broken(found),
        Err(fault) => refused(fault),
    }
}

// An answer with no reading.
fn no_reading(answer: u32, code: u32, place: usize) -> ScriptAnswer
    ensures { result ≡ no_reading answer code place }
{
    ScriptAnswer {
        answer,
        code,
        place,
        opening: NO_ENTRY,
        crossed: NO_ENTRY,
        touched: NO_ENTRY,
        now: NO_ENTRY,
    }
}

// The answer of a reading.
fn read<C: Sent>(reading: Reading<C>) -> ScriptAnswer
    ensures { result ≡ script_answer C.sending (Some (Reading_of reading)) }
{
    ScriptAnswer {
        answer: ANSWER_READING,
        code: 0,
        place: 0,
        opening: reading.opening.to_entry(),
        crossed: reading.crossed.to_entry(),
        touched: reading.touched.to_entry(),
        now: reading.now.to_entry(),
    }
}

// What a call of a script is answered.
pub(crate) fn script_answer<C: Sent>(answer: Option<Answer<C>>) -> ScriptAnswer
    ensures { result ≡ script_answer C.sending answer }
{
    match answer {
        None => no_reading(ANSWER_NONE, 0, 0),
        Some(Answer::Done) => no_reading(ANSWER_DONE, 0, 0),
        Some(Answer::Reading(reading)) => read(reading),
        Some(Answer::Refused(fault)) => no_reading(
            ANSWER_REFUSED,
            fault.stop.code() as u32,
            fault.place,
        ),
    }
}
