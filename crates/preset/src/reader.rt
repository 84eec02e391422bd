// Presets read from bytes into lent strips.
ghost use Rattle.std.specs.Prelude.{◌≡◌, ◌-◌, ◌≤◌, length, Ok, Err, MatchResult};
ghost use Rattle.fault.specs.Limits.{most_words};
ghost use Rattle.fault.specs.Refusals.{refusal, refused_at};
ghost use Rattle.fault.specs.declared.Stop.TheVariants.{SurplusBytes};
ghost use Rattle.fault.specs.Answers.{plainly, and_then, strip_after};
ghost use Rattle.preset.specs.Heads.{heads};
ghost use Rattle.preset.specs.Answers.{parse_seen};
ghost use Rattle.preset.specs.Laws.{PresetWritesBack, OneSpelling, PresetSizes};
ghost use Rattle.preset.specs.Presets.{preset as preset-at, with_strip_room, reading, whole_reading, header_of, header_and_rest};
ghost use Rattle.preset.specs.Scans.{Scanned};

use crate::entry::Entry;
use crate::header::{Head, Header};
use crate::input::Unread;
use crate::items::{fill, skip};
use fault::limits::MOST_WORDS;
use fault::{Fault, Stop};

/// How long the strips have to be that a preset is read into, 4,096 letters and 4,096 entries: the largest preset fits.
pub const STRIP: usize = MOST_WORDS as usize;

// Where the parts of a preset begin.
#[derive(Drop)]
pub(crate) struct Scan<'a> {
    pub head: Head,
    pub letters: Unread<'a>,
    pub entries: Unread<'a>,
    pub rest: Unread<'a>,
}

// The first pass: everything is checked, and nothing is written.
fn find_parts(input: &[u8]) -> Result<Scan<'_>, Fault>
    ensures { MatchResult result (Scanned input.now) (λ f. preset-at input.now ≡ Err (refusal f)) }
{
    let mut rest = Unread::new(input);
    let head = Head::read(&mut rest)?;
    let limits = head.limits();
    let letters = rest;
    skip::<u8>(limits, &mut rest, head.letter_count())?;
    let entries = rest;
    skip::<Entry>(limits, &mut rest, head.entry_count())?;
    Ok(Scan {
        head,
        letters,
        entries,
        rest,
    })
}

// The same for strips of some lengths, which have to be long enough.
fn find_parts_for(input: &[u8], letters: usize, entries: usize) -> Result<Scan<'_>, Fault>
    ensures { MatchResult result
        (λ s. Scanned input.now s × (most_words ≤ letters) × (most_words ≤ entries))
        (λ f. with_strip_room letters entries (preset-at input.now) ≡ Err (refusal f)) }
{
    Stop::ShortStrip.unless(STRIP <= letters && STRIP <= entries)?;
    find_parts(input)
}

// The second pass: the letters and the entries, which are there, go to the front of the strips.
fn fill_strips(input: &[u8], scan: Scan, letters: &mut [u8], entries: &mut [Entry])
    requires scanned { Scanned input.now scan }
    requires letter_room { most_words ≤ length letters.old }
    requires entry_room { most_words ≤ length entries.old }
    ensures letters { letters.new
        ≡ strip_after (λ p. p.0.letters) letters.old (preset-at input.now) }
    ensures entries { entries.new
        ≡ strip_after (λ p. p.0.entries) entries.old (preset-at input.now) }
{
    let limits = scan.head.limits();
    fill::<u8>(limits, scan.letters, letters, scan.head.letter_count());
    fill::<Entry>(limits, scan.entries, entries, scan.head.entry_count());
}

/// Reads the preset at the front of the input, its q^n letters and q^k entries to the front of the strips, and answers
/// its header and the bytes after it.
///
/// # Errors
///
/// `Stop::ShortStrip` at place 0 where a strip is shorter than `STRIP`; else the first number at fault, at the index of
/// its first byte: `CutShort`, `Misspelt`, `UnknownKind`, `BadAlphabet`, `BadWindow`, `BadReach`, `BadWidth`,
/// `TooManyWords` (at the width), `BadLetter` or `BadEntry`.
pub fn read_preset<'a>(
    input: &'a [u8],
    letters: &mut [u8],
    entries: &mut [Entry],
) -> Result<(Header, &'a [u8]), Fault>
    ensures answer { parse_seen result
        ≡ header_and_rest (reading letters.old entries.old input.now) }
    ensures letters { let read = reading letters.old entries.old input.now in
        letters.new ≡ strip_after (λ p. p.0.letters) letters.old read }
    ensures entries { let read = reading letters.old entries.old input.now in
        entries.new ≡ strip_after (λ p. p.0.entries) entries.old read }
    ensures writes_back { PresetWritesBack }
{
    let scan = find_parts_for(input, letters.len(), entries.len())?;
    let header = scan.head.header;
    let rest = scan.rest.bytes;
    fill_strips(input, scan, letters, entries);
    Ok((header, rest))
}

// The refusal of the bytes that follow a preset.
fn surplus(rest: &Unread<'_>) -> Fault
    ensures { let at = rest.now.whole - length rest.now.bytes.now in
        refusal result ≡ refused_at SurplusBytes at }
{
    Stop::SurplusBytes.at(rest.place())
}

// The same where the input is one preset and no more. The answer is the preset's head.
pub(crate) fn read_parts(
    input: &[u8],
    letters: &mut [u8],
    entries: &mut [Entry],
) -> Result<Head, Fault>
    ensures answer { let read = whole_reading letters.old entries.old input.now in
        plainly (heads result) ≡ and_then read (λ p. Ok p.head) }
    ensures letters { let read = whole_reading letters.old entries.old input.now in
        letters.new ≡ strip_after (λ p. p.letters) letters.old read }
    ensures entries { let read = whole_reading letters.old entries.old input.now in
        entries.new ≡ strip_after (λ p. p.entries) entries.old read }
{
    let scan = find_parts_for(input, letters.len(), entries.len())?;
    if !scan.rest.bytes.is_empty() {
        return Err(surplus(&scan.rest));
    }
    let head = scan.head;
    fill_strips(input, scan, letters, entries);
    Ok(head)
}

/// Reads the preset that the whole input is, its letters and entries to the front of the strips, and answers its
/// header.
///
/// # Errors
///
/// As `read_preset`, and `Stop::SurplusBytes` at the first byte after the preset.
pub fn read_whole(input: &[u8], letters: &mut [u8], entries: &mut [Entry]) -> Result<Header, Fault>
    ensures answer { plainly result ≡ header_of (whole_reading letters.old entries.old input.now) }
    ensures letters { let read = whole_reading letters.old entries.old input.now in
        letters.new ≡ strip_after (λ p. p.letters) letters.old read }
    ensures entries { let read = whole_reading letters.old entries.old input.now in
        entries.new ≡ strip_after (λ p. p.entries) entries.old read }
    ensures one_spelling { OneSpelling }
    ensures sizes { PresetSizes }
{
    let head = read_parts(input, letters, entries)?;
    Ok(head.header)
}
