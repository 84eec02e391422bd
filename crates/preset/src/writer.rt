// Presets written as bytes from lent strips.
ghost use Rattle.std.specs.Prelude.{◌≡◌, ◌≤◌, length, Err, MatchResult, OnOk};
ghost use Rattle.fault.specs.Refusals.{refusal};
ghost use Rattle.fault.specs.Answers.{plainly, at_front, strip_after};
ghost use Rattle.fault.specs.Checks.{tested};
ghost use Rattle.preset.specs.Heads.{head_of, heads};
ghost use Rattle.preset.specs.Laws.{PresetReadsBack};
ghost use Rattle.preset.specs.Loads.{loaded, preset_of};
ghost use Rattle.preset.specs.Numbers.{NumberReadsBack};
ghost use Rattle.preset.specs.Scans.{Writable};
ghost use Rattle.preset.specs.Sizes.{Sized};
ghost use Rattle.preset.specs.Writes.{size_tests, head_checked, header_numbers, contents_checked, preset_to_write, preset_bytes, writing, written};

use crate::entry::Entry;
use crate::header::{Head, Header};
use crate::input::is_within;
use crate::items::{Encode, check, put_all, total_len};
use crate::loaded::Loaded;
use charge::ChargeKind;
use fault::limits::{LEAST_LETTERS, MOST_LETTERS, MOST_WIDTH, MOST_WINDOW, word_count};
use fault::{Fault, Stop};

fn header_numbers(header: Header) -> [u64; 5]
    ensures { result ≡ header_numbers header }
{
    [header.kind, header.q, header.n, header.l, header.k]
}

fn check_sizes(header: Header) -> Result<(), Fault>
    ensures answer { plainly result ≡ tested (size_tests header) }
    ensures sized { OnOk result (Sized header) }
{
    Stop::BadAlphabet.unless(is_within(header.q, LEAST_LETTERS, MOST_LETTERS + 1))?;
    Stop::BadWindow.unless(is_within(header.n, 1, MOST_WINDOW + 1))?;
    Stop::BadReach.unless(header.l < header.n)?;
    Stop::BadWidth.unless(is_within(header.k, 1, MOST_WIDTH + 1))?;
    Stop::TooManyWords.unless(word_count(header.q, header.n + header.k - 1).is_some())?;
    Ok(())
}

// A header that may be written, with the kind that it names.
fn check_head(header: Header) -> Result<Head, Fault>
    ensures { plainly (heads result) ≡ head_checked header }
{
    let kind = ChargeKind::try_from(header.kind).map_err(|_| Stop::UnknownKind.at(0))?;
    check_sizes(header)?;
    Ok(Head { kind, header })
}

// Each letter and each entry is allowed.
fn check_contents(head: Head, letters: &[u8], entries: &[Entry]) -> Result<(), Fault>
    ensures { plainly result
        ≡ contents_checked
        (record { head = head_of head; letters = letters.now; entries = entries.now }) }
{
    let limits = head.limits();
    check::<u8>(limits, letters)?;
    check::<Entry>(limits, entries)
}

// Every test but the byte strip's.
fn check_preset(header: Header, letters: &[u8], entries: &[Entry]) -> Result<Head, Fault>
    ensures { MatchResult result
        (Writable header letters.now entries.now)
        (λ f. preset_to_write header letters.now entries.now ≡ Err (refusal f)) }
{
    let head = check_head(header)?;
    let letter_count = head.letter_count();
    let entry_count = head.entry_count();
    if letters.len() < letter_count || entries.len() < entry_count {
        return Err(Stop::ShortStrip.at(0));
    }
    check_contents(head, &letters[..letter_count], &entries[..entry_count])?;
    Ok(head)
}

// The preset of a header and of the fronts of two strips.
fn load<'a>(header: Header, letters: &'a [u8], entries: &'a [Entry]) -> Result<Loaded<'a>, Fault>
    ensures { loaded result ≡ preset_to_write header letters.now entries.now }
{
    let head = check_preset(header, letters, entries)?;
    Ok(Loaded::from_fronts(head, letters, entries))
}

// How many bytes a preset takes.
fn preset_len(preset: &Loaded<'_>) -> usize
    ensures { result ≡ length (preset_bytes (preset_of preset.now)) }
{
    let limits = preset.limits();
    let numbers = header_numbers(preset.header);
    total_len::<u64>(limits, &numbers)
        + total_len::<u8>(limits, preset.letters)
        + total_len::<Entry>(limits, preset.entries)
}

// Writes a preset to the front of the strip, where there is room, and answers how many bytes it takes.
fn put_preset(preset: &Loaded<'_>, out: &mut [u8]) -> usize
    requires { length (preset_bytes (preset_of preset.now)) ≤ length out.old }
    ensures count { result ≡ length (preset_bytes (preset_of preset.now)) }
    ensures strip { out.new ≡ at_front (preset_bytes (preset_of preset.now)) out.old }
{
    let limits = preset.limits();
    let numbers = header_numbers(preset.header);
    let header = put_all::<u64>(limits, &numbers, out);
    let letters = header + put_all::<u8>(limits, preset.letters, &mut out[header..]);
    letters + put_all::<Entry>(limits, preset.entries, &mut out[letters..])
}

/// Writes a preset to the front of the byte strip and answers how many bytes it takes. Of letters and entries, as many
/// are written as the header asks, from the front of their strips. They are no `Loaded`, since the header may be any.
///
/// # Errors
///
/// At place 0, by the first of these that fits: `Stop::UnknownKind`, `BadAlphabet`, `BadWindow`, `BadReach`,
/// `BadWidth`, `TooManyWords`, `ShortStrip` for too few letters or entries; then `BadLetter` or `BadEntry` at the index
/// of the first that is not allowed; last `ShortStrip` at place 0 where the bytes have no room.
#[tactic(auto, using(crate::proofs::NumberLaws::number_reads_back, crate::proofs::PresetLaws::preset_reads_back))]
pub fn write_preset(
    header: Header,
    letters: &[u8],
    entries: &[Entry],
    out: &mut [u8],
) -> Result<usize, Fault>
    ensures answer { plainly result ≡ written (writing header letters.now entries.now out.old) }
    ensures strip { let made = writing header letters.now entries.now out.old in
        out.new ≡ strip_after (λ bytes. bytes) out.old made }
    ensures number_reads_back { NumberReadsBack }
    ensures reads_back { PresetReadsBack }
{
    let preset = load(header, letters, entries)?;
    Stop::ShortStrip.unless(preset_len(&preset) <= out.len())?;
    Ok(put_preset(&preset, out))
}
