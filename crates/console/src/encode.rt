// A page turned into a preset's bytes.
ghost use Rattle.std.specs.Prelude.{◌≡◌, ◌≢◌, ◌≤◌, Some, None, Err, IfSome, IfErr, MatchBool, MatchResult, OnSome, filter_map, length, vec_items};
ghost use Rattle.preset.specs.Writes.{writing};
ghost use Rattle.console.specs.Encodes.{most_preset, answered, no_memory, from_writer, miscounted, bytes_of, encoded, encode_sentence};
ghost use Rattle.console.specs.Results.{SameUnless};
ghost use Rattle.console.specs.Grammar.{outlined};
ghost use Rattle.console.specs.Cutting.{words_left};
ghost use Rattle.console.specs.declared.encode.EncodeError.TheVariants.{Text};
ghost use Rattle.console.specs.declared.error.TextError.TheVariants.{Memory};

use crate::cutting::LineWords;
use crate::error::TextError;
use crate::item::PageItem;
use crate::outline::{Outline, read_outline};
use crate::part_lines::{PartLines, line_of_refusal};
use charge::ChargeKind;
use fault::Fault;
use preset::{Entry, Header, STRIP, write_preset};
use std::alloc::{AllocError, Global};
use std::error::Error;
use std::fmt;

// No preset takes more bytes than this.
const MOST_PRESET: usize = 32768;

/// Why a page gives no preset, or that there is no memory. Its text is one sentence.
#[derive(Clone, Copy, PartialEq, Eq, Debug)]
pub enum EncodeError {
    /// The text is no page, or there is no memory.
    Text(TextError),
    /// The rule has another count of letters than the header asks.
    Letters {
        /// The line of the rule, counted from 1.
        line: usize,
        /// How many letters the header asks: the alphabet size to the power of the window.
        count: usize,
    },
    /// The density has another count of entries than the header asks.
    Entries {
        /// The line of the density, counted from 1.
        line: usize,
        /// How many entries the header asks: the alphabet size to the power of the width.
        count: usize,
    },
    /// The preset writer refuses what the page holds.
    Refused {
        /// The lines of the page, by which the refusal is told.
        lines: PartLines,
        /// The refusal, as `preset::write_preset` gives it.
        fault: Fault,
    },
}

// Fills a strip with the items that words write, and answers whether there are as many as it is long.
fn fill<T: PageItem>(kind: ChargeKind, words: LineWords<'_>, strip: &mut [T]) -> bool
    ensures { let items = filter_map (T.form.reads kind) (words_left words.entry) in
        MatchBool result (strip.new ≡ items) (length strip.old ≢ length items) }
{
    let mut filled = 0;
    for word in words {
        if let Some(item) = T::from_word(kind, word) {
            if filled == strip.len() {
                return false;
            }
            strip[filled] = item;
            filled += 1;
        }
    }
    filled == strip.len()
}

// The items that words write, in front of a strip, if there are as many as a header counts; else that count. A header
// that counts none is refused whatever the items are, so none are taken.
fn counted_items<'s, T: PageItem>(
    count: Option<usize>,
    kind: ChargeKind,
    words: LineWords<'_>,
    strip: &'s mut [T],
) -> Result<&'s [T], usize>
    requires { IfSome count (λ n. n ≤ length strip.old) }
    ensures { let items = filter_map (T.form.reads kind) (words_left words.entry) in
        MatchResult result
        (λ s. (miscounted count (length items) ≡ None) × OnSome count (s.now ≡ items))
        (λ n. miscounted count (length items) ≡ Some n) }
{
    let Some(count) = count else {
        return Ok(&[]);
    };
    let front = &mut strip[..count];
    if fill(kind, words, front) {
        Ok(front)
    } else {
        Err(count)
    }
}

// The bytes that the writer writes, in front of a strip, or its refusal with the lines of the page.
fn write_front<'o>(
    header: Header,
    letters: &[u8],
    entries: &[Entry],
    lines: PartLines,
    out: &'o mut [u8],
) -> Result<&'o [u8], EncodeError>
    ensures { answered (λ s. s.now) result
        ≡ from_writer lines (writing header letters.now entries.now out.old) }
{
    match write_preset(header, letters, entries, out) {
        Ok(len) => Ok(&out[..len]),
        Err(fault) => Err(EncodeError::Refused { lines, fault }),
    }
}

// The bytes of what a page holds, in front of a strip that every preset fits. The letters and the entries stand on the
// stack.
fn encode_outline<'o>(page: Outline<'_>, out: &'o mut [u8]) -> Result<&'o [u8], EncodeError>
    requires { length out.old ≡ most_preset }
    ensures { answered (λ s. s.now) result ≡ bytes_of (outlined page.entry) }
{
    let Outline {
        kind,
        header,
        letters,
        entries,
        lines,
    } = page;
    let mut letter_strip = [0; STRIP];
    let letters = match counted_items(header.letter_count(), kind, letters, &mut letter_strip) {
        Ok(letters) => letters,
        Err(count) => {
            return Err(EncodeError::Letters {
                line: lines.rule,
                count,
            });
        }
    };
    let mut entry_strip = [Entry {
        signed: 0,
        plain: 0,
    }; STRIP];
    let entries = match counted_items(header.entry_count(), kind, entries, &mut entry_strip) {
        Ok(entries) => entries,
        Err(count) => {
            return Err(EncodeError::Entries {
                line: lines.density,
                count,
            });
        }
    };
    write_front(header, letters, entries, lines, out)
}

/// The bytes of the preset that a page writes, at most 32,768. They are written to the stack first, so that no more is
/// taken from the heap than they take, and nothing where there is no preset.
///
/// Refuses in this order: what is wrong with the text, a count of letters that is not the header's, such a count of
/// entries, and what `preset::write_preset` refuses. The line `bytes` may be left out, and its number is not used.
///
/// ```text
/// "kind voices\nletters 2\nwindow 1\nreach 0\nwidth 1\nrule 0 1\ndensity 0 1\n"
///     the bytes 0 2 1 0 1 0 1 0 2
/// ```
pub fn encode_page(alloc: Global, text: &[u8]) -> Result<Vec<u8>, EncodeError>
    ensures bytes { SameUnless no_memory (answered vec_items result) (encoded text.now) }
    // No memory is needed to tell why a text gives no preset.
    ensures wrong { IfErr (encoded text.now) (λ e. answered vec_items result ≡ Err e) }
{
    let page = read_outline(text)?;
    let mut out = [0; MOST_PRESET];
    let bytes = encode_outline(page, &mut out)?;
    Ok(Vec::from_slice(alloc, bytes)?)
}

impl Error for EncodeError {}

impl From<TextError> for EncodeError {
    ghost from_gives = { λ error e. e ≡ Text error };

    fn from(error: TextError) -> EncodeError {
        EncodeError::Text(error)
    }
}

impl From<AllocError> for EncodeError {
    ghost from_gives = { λ _ e. e ≡ Text Memory };

    fn from(_error: AllocError) -> EncodeError {
        EncodeError::Text(TextError::Memory)
    }
}

impl fmt::Display for EncodeError {
    ghost output = { λ e. Some (encode_sentence e) };

    fn fmt<W: fmt::Write>(&self, f: &mut fmt::Formatter<W>) -> fmt::Result {
        match self {
            EncodeError::Text(error) => write!(f, "{error}"),
            EncodeError::Letters { line, count } => write!(
                f,
                "Line {line}: expected {count} letters."
            ),
            EncodeError::Entries { line, count } => write!(
                f,
                "Line {line}: expected {count} entries."
            ),
            EncodeError::Refused { lines, fault } => match line_of_refusal(*lines, fault.stop) {
                Some(line) => {
                    let reason = fault.stop.reason();
                    write!(f, "Line {line}: {reason}.")
                }
                None => write!(f, "{fault}"),
            },
        }
    }
}
