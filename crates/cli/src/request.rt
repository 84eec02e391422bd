// What the program's arguments ask.
ghost use Rattle.std.specs.Prelude.{◌≡◌, map, vec_items};
ghost use Rattle.cli.specs.Commands.{lent_word, word_at, letters};
ghost use Rattle.cli.specs.Requests.{is_option, file_name, operand, operand_word, ring_operand, steps_operand, no_more, one_file, two_files, meters_flag, asking, request_meant, asked_of, first_subcommand, asks_help, any_help, requested};
ghost use Rattle.cli.specs.declared.subcommand.Subcommand.TheVariants as subcommand;

use crate::command::RingDigits;
use crate::count::{read_count, read_ring};
use crate::line::few_steps;
use crate::shown::utf8;
use crate::subcommand::{Subcommand, subcommand_named};
use crate::usage::{Operand, UsageError};
use console::is_text;

/// What is asked of the program. Names of files are as they were given.
#[derive(Clone, Copy)]
pub enum Request<'a> {
    /// `help`: the page of help.
    Help,
    /// `show PRESET`: what a preset file holds.
    Show {
        /// The preset file.
        preset: &'a str,
    },
    /// `encode TEXT PRESET`: a preset file of a text.
    Encode {
        /// The file of the text.
        text: &'a str,
        /// The preset file that is written.
        preset: &'a str,
    },
    /// `judge PRESET...`: a verdict for each preset.
    Judge {
        /// At least one word. Which of them name files is asked of each by itself ([`file_name`]).
        presets: &'a [Vec<u8>],
    },
    /// `crossings PRESET`: what crosses at each word.
    Crossings {
        /// The preset file.
        preset: &'a str,
    },
    /// `compare PRESET PRESET`: whether two densities have the same totals.
    Compare {
        /// The preset file with the one density.
        first: &'a str,
        /// The preset file with the other.
        second: &'a str,
    },
    /// `play PRESET`: the script on standard input, played.
    Play {
        /// The preset file.
        preset: &'a str,
    },
    /// `run PRESET RING STEPS [--meters]`: a ring, a row for each step.
    Run {
        /// The preset file.
        preset: &'a str,
        /// The letters of the ring.
        ring: RingDigits<'a>,
        /// How many steps, at most [`crate::MOST_STEPS`].
        steps: usize,
        /// Whether each row has what has crossed, too.
        meters: bool,
    },
}

// A word that begins with a minus sign and has more is an option.
fn is_option(word: &[u8]) -> bool
    ensures { result ≡ is_option word.now }
{
    matches!(word, [b'-', _, ..])
}

/// The name of a file that a word is. Refuses an option, which is a word that begins with a minus sign and has more,
/// and a word that is no UTF-8.
pub fn file_name(word: &[u8]) -> Result<&str, UsageError<'_>>
    ensures { asking (λ s. s.now) result ≡ file_name word.now }
{
    if is_option(word) {
        return Err(UsageError::UnknownOption(word));
    }
    utf8(word).ok_or(UsageError::NotText(word))
}

// The name of a file, for an operand that is one.
fn operand<'a>(what: Operand, word: Option<&'a [u8]>) -> Result<&'a str, UsageError<'a>>
    ensures { asking (λ s. s.now) result ≡ operand what (lent_word word.entry) }
{
    match word {
        Some(word) => file_name(word),
        None => Err(UsageError::Missing(what)),
    }
}

// The word for an operand that is no file.
fn operand_word<'a>(what: Operand, word: Option<&'a [u8]>) -> Result<&'a [u8], UsageError<'a>>
    ensures { asking (λ s. s.now) result ≡ operand_word what (lent_word word.entry) }
{
    match word {
        Some(word) if is_option(word) => Err(UsageError::UnknownOption(word)),
        Some(word) => Ok(word),
        None => Err(UsageError::Missing(what)),
    }
}

fn ring_operand(word: Option<&[u8]>) -> Result<RingDigits<'_>, UsageError<'_>>
    ensures { asking (λ d. letters d.text.now) result ≡ ring_operand (lent_word word.entry) }
{
    let word = operand_word(Operand::Ring, word)?;
    read_ring(word).ok_or(UsageError::NotRing(word))
}

fn steps_operand(word: Option<&[u8]>) -> Result<usize, UsageError<'_>>
    ensures { asking (λ n. n) result ≡ steps_operand (lent_word word.entry) }
{
    let word = operand_word(Operand::Steps, word)?;
    let count = read_count(word).ok_or(UsageError::NotSteps(word))?;
    few_steps(count).ok_or(UsageError::ManySteps(word))
}

// Nothing may follow.
fn no_more(next: Option<&[u8]>) -> Result<(), UsageError<'_>>
    ensures { asking (λ v. v) result ≡ no_more (lent_word next.entry) }
{
    match next {
        None => Ok(()),
        Some(word) if is_option(word) => Err(UsageError::UnknownOption(word)),
        Some(word) => Err(UsageError::Surplus(word)),
    }
}

// The word i of some words, if they are so many.
fn word_at(words: &[Vec<u8>], i: usize) -> Option<&[u8]>
    ensures { lent_word result ≡ word_at i (map vec_items words.now) }
{
    match words.get(i) {
        Some(word) => Some(word.as_slice()),
        None => None,
    }
}

// A preset, and nothing more.
fn one_file<'a>(words: &'a [Vec<u8>]) -> Result<&'a str, UsageError<'a>>
    ensures { asking (λ s. s.now) result ≡ one_file (map vec_items words.now) }
{
    let preset = operand(Operand::Preset, word_at(words, 0))?;
    no_more(word_at(words, 1))?;
    Ok(preset)
}

// A file that is an operand, a preset, and nothing more.
fn two_files<'a>(what: Operand, words: &'a [Vec<u8>]) -> Result<(&'a str, &'a str), UsageError<'a>>
    ensures { asking (λ p. (p.0.now, p.1.now)) result ≡ two_files what (map vec_items words.now) }
{
    let first = operand(what, word_at(words, 0))?;
    let second = operand(Operand::Preset, word_at(words, 1))?;
    no_more(word_at(words, 2))?;
    Ok((first, second))
}

// What is asked of a text and a preset, and of two presets.
fn encode<'a>(words: &'a [Vec<u8>]) -> Result<Request<'a>, UsageError<'a>>
    ensures { asking request_meant result ≡ asked_of subcommand.Encode (map vec_items words.now) }
{
    let (text, preset) = two_files(Operand::Text, words)?;
    Ok(Request::Encode { text, preset })
}

fn compare<'a>(words: &'a [Vec<u8>]) -> Result<Request<'a>, UsageError<'a>>
    ensures { asking request_meant result ≡ asked_of subcommand.Compare (map vec_items words.now) }
{
    let (first, second) = two_files(Operand::Preset, words)?;
    Ok(Request::Compare { first, second })
}

// At least one preset.
fn judge<'a>(words: &'a [Vec<u8>]) -> Result<Request<'a>, UsageError<'a>>
    ensures { asking request_meant result ≡ asked_of subcommand.Judge (map vec_items words.now) }
{
    match words {
        [] => Err(UsageError::Missing(Operand::Preset)),
        [_, ..] => Ok(Request::Judge { presets: words }),
    }
}

// Whether the option that asks for meters is there, and nothing more.
fn meters_flag<'a>(option: Option<&'a [u8]>, next: Option<&'a [u8]>) -> Result<bool, UsageError<'a>>
    ensures { asking (λ v. v) result ≡ meters_flag (lent_word option.entry) (lent_word next.entry) }
{
    let meters = option.is_some_and(|word| is_text(word, "--meters"));
    let next = if meters { next } else { option };
    no_more(next)?;
    Ok(meters)
}

// A ring that is run.
fn run<'a>(words: &'a [Vec<u8>]) -> Result<Request<'a>, UsageError<'a>>
    ensures { asking request_meant result ≡ asked_of subcommand.Run (map vec_items words.now) }
{
    let preset = operand(Operand::Preset, word_at(words, 0))?;
    let ring = ring_operand(word_at(words, 1))?;
    let steps = steps_operand(word_at(words, 2))?;
    let meters = meters_flag(word_at(words, 3), word_at(words, 4))?;
    Ok(Request::Run {
        preset,
        ring,
        steps,
        meters,
    })
}

// Nothing is asked of files.
fn help<'a>(words: &'a [Vec<u8>]) -> Result<Request<'a>, UsageError<'a>>
    ensures { asking request_meant result ≡ asked_of subcommand.Help (map vec_items words.now) }
{
    no_more(word_at(words, 0))?;
    Ok(Request::Help)
}

// What a command asks, by the words after its name.
fn asked_of<'a>(command: Subcommand, words: &'a [Vec<u8>]) -> Result<Request<'a>, UsageError<'a>>
    ensures { asking request_meant result ≡ asked_of command (map vec_items words.now) }
{
    match command {
        Subcommand::Help => help(words),
        Subcommand::Show => Ok(Request::Show {
            preset: one_file(words)?,
        }),
        Subcommand::Encode => encode(words),
        Subcommand::Judge => judge(words),
        Subcommand::Crossings => Ok(Request::Crossings {
            preset: one_file(words)?,
        }),
        Subcommand::Compare => compare(words),
        Subcommand::Play => Ok(Request::Play {
            preset: one_file(words)?,
        }),
        Subcommand::Run => run(words),
    }
}

// The command that the first word names.
fn first_subcommand(word: Option<&[u8]>) -> Result<Subcommand, UsageError<'_>>
    ensures { asking (λ c. c) result ≡ first_subcommand (lent_word word.entry) }
{
    match word {
        None => Err(UsageError::NoCommand),
        Some(word) => match subcommand_named(word) {
            Some(command) => Ok(command),
            None if is_option(word) => Err(UsageError::UnknownOption(word)),
            None => Err(UsageError::UnknownCommand(word)),
        },
    }
}

// A word that asks for the page of help.
fn asks_help(word: &[u8]) -> bool
    ensures { result ≡ asks_help word.now }
{
    is_text(word, "--help") || is_text(word, "-h")
}

fn any_help(words: &[Vec<u8>]) -> bool
    ensures { result ≡ any_help (map vec_items words.now) }
{
    for word in words {
        if asks_help(word) {
            return true;
        }
    }
    false
}

/// What the words after the program's name ask. `--help` and `-h` may stand anywhere among them. Refuses words by the
/// first that is wrong, or by what is missing.
///
/// ```text
/// encode cars.txt cars.preset    Ok(Request::Encode { text: "cars.txt", preset: "cars.preset" })
/// encode cars.txt                Err(UsageError::Missing(Operand::Preset))
/// ```
pub fn read_arguments(words: &[Vec<u8>]) -> Result<Request<'_>, UsageError<'_>>
    ensures { asking request_meant result ≡ requested (map vec_items words.now) }
{
    if any_help(words) {
        return Ok(Request::Help);
    }
    let command = first_subcommand(word_at(words, 0))?;
    match words {
        [_, rest @ ..] => asked_of(command, rest),
        [] => asked_of(command, words),
    }
}
