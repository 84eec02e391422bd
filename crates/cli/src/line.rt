// A line of a script.
ghost use Rattle.std.specs.Prelude.{◌≡◌};
ghost use Rattle.console.specs.Results.{value_as};
ghost use Rattle.cli.specs.Commands.{command_meant, lent_word, at_end, number_word, few_steps, open_command, step_command, site_and, read_command, of_verb, named_command, line_command, some_command_meant, ReadsBack};

use crate::command::{Command, RingDigits, Verb};
use crate::count::{read_count, read_ring};
use crate::verb::verb_named;
use console::{Class, LineWords, cut};

/// What a line should have where it has something else, or nothing. Its text goes on a sentence: `a site`.
#[derive(Clone, Copy, PartialEq, Eq, Debug)]
pub enum Wanted {
    /// A word that a command begins with.
    Verb,
    /// The letters of a ring, a digit each.
    Letters,
    /// A site, which is a number.
    Site,
    /// A letter, which is a number.
    Letter,
    /// How many sites an arc has.
    Length,
    /// A number of steps.
    Steps,
    /// At most [`MOST_STEPS`] steps.
    FewerSteps,
    /// Nothing more on the line.
    LineEnd,
}

/// Steps at once are at most as many as this.
pub const MOST_STEPS: usize = 1_000_000;

// A value, unless something follows.
fn at_end<T: Drop>(value: T, rest: Option<&[u8]>) -> Result<T, Wanted>
    ensures { result ≡ at_end (lent_word rest.entry) value }
{
    match rest {
        None => Ok(value),
        Some(_) => Err(Wanted::LineEnd),
    }
}

// The number that a word writes.
fn number_word(wanted: Wanted, word: Option<&[u8]>) -> Result<usize, Wanted>
    ensures { result ≡ number_word wanted (lent_word word.entry) }
{
    word.and_then(read_count).ok_or(wanted)
}

// Steps that are run at once, unless they are too many.
pub(crate) fn few_steps(count: usize) -> Option<usize>
    ensures { result ≡ few_steps count }
{
    (count <= MOST_STEPS).then_some(count)
}

// The ring that is opened.
fn open_command<'a>(first: Option<&'a [u8]>, second: Option<&[u8]>) -> Result<Command<'a>, Wanted>
    ensures { value_as command_meant result
        ≡ open_command (lent_word first.entry) (lent_word second.entry) }
{
    let Some(word) = first else {
        return Ok(Command::Open(RingDigits { text: &[] }));
    };
    let ring = read_ring(word).ok_or(Wanted::Letters)?;
    at_end(Command::Open(ring), second)
}

// One step, or as many as are asked.
fn step_command<'a>(first: Option<&[u8]>, second: Option<&[u8]>) -> Result<Command<'a>, Wanted>
    ensures { value_as command_meant result
        ≡ step_command (lent_word first.entry) (lent_word second.entry) }
{
    let Some(word) = first else {
        return Ok(Command::Step);
    };
    let count = read_count(word).ok_or(Wanted::Steps)?;
    let steps = few_steps(count).ok_or(Wanted::FewerSteps)?;
    at_end(Command::Steps(steps), second)
}

// The site that is read.
fn read_command<'a>(first: Option<&[u8]>, second: Option<&[u8]>) -> Result<Command<'a>, Wanted>
    ensures { value_as command_meant result
        ≡ read_command (lent_word first.entry) (lent_word second.entry) }
{
    let site = number_word(Wanted::Site, first)?;
    at_end(Command::Read(site), second)
}

// A site and a number.
fn site_and(
    wanted: Wanted,
    first: Option<&[u8]>,
    second: Option<&[u8]>,
    third: Option<&[u8]>,
) -> Result<(usize, usize), Wanted>
    ensures { result
        ≡ site_and wanted (lent_word first.entry) (lent_word second.entry) (lent_word third.entry) }
{
    let site = number_word(Wanted::Site, first)?;
    let count = number_word(wanted, second)?;
    at_end((site, count), third)
}

// The command of a sort, by the words after its name.
fn of_verb<'a>(
    verb: Verb,
    first: Option<&'a [u8]>,
    second: Option<&[u8]>,
    third: Option<&[u8]>,
) -> Result<Command<'a>, Wanted>
    ensures { value_as command_meant result
        ≡ of_verb verb (lent_word first.entry) (lent_word second.entry) (lent_word third.entry) }
{
    match verb {
        Verb::Open => open_command(first, second),
        Verb::Step => step_command(first, second),
        Verb::Touch => {
            let (site, letter) = site_and(Wanted::Letter, first, second, third)?;
            Ok(Command::Touch { site, letter })
        }
        Verb::Read => read_command(first, second),
        Verb::Arc => {
            let (site, len) = site_and(Wanted::Length, first, second, third)?;
            Ok(Command::Arc { site, len })
        }
        Verb::Meters => at_end(Command::Meters, first),
        Verb::Close => at_end(Command::Close, first),
    }
}

// The command that words are, of which the first is its name.
fn named_command<'a>(
    name: Option<&[u8]>,
    first: Option<&'a [u8]>,
    second: Option<&[u8]>,
    third: Option<&[u8]>,
) -> Result<Option<Command<'a>>, Wanted>
    ensures { value_as some_command_meant result
        ≡ named_command (lent_word name.entry)
        (lent_word first.entry) (lent_word second.entry) (lent_word third.entry) }
{
    let Some(name) = name else {
        return Ok(None);
    };
    let verb = verb_named(name).ok_or(Wanted::Verb)?;
    Ok(Some(of_verb(verb, first, second, third)?))
}

/// The command that a line is, or `None` where it has no words. What follows a `#` is a comment. A number of 2^63 or
/// more counts as 2^63, and only steps have a limit of their own. Refuses a line by what its first wrong word should
/// be.
///
/// ```text
/// read_line(b"touch 1 0  # the second cell")    Ok(Some(Command::Touch { site: 1, letter: 0 }))
/// read_line(b"touch 1")                         Err(Wanted::Letter)
/// ```
#[tactic(auto, using(crate::proofs::SaidBack::reads_back))]
pub fn read_line(line: &[u8]) -> Result<Option<Command<'_>>, Wanted>
    ensures command { value_as some_command_meant result ≡ line_command line.now }
    ensures back { ReadsBack }
{
    let mut words = LineWords {
        line: cut(Class::NotHash, line).leading,
    };
    let name = words.next();
    let first = words.next();
    let second = words.next();
    named_command(name, first, second, words.next())
}
