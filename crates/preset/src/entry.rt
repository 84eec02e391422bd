// Entries of a density, as they stand in a preset: a signed and a plain part.
ghost use Rattle.std.specs.Prelude.{◌≡◌, ◌≤◌, if◌then◌else◌, length, Some, None};
ghost use Rattle.fault.specs.Answers.{at_front};
ghost use Rattle.preset.specs.Entries.{signed_part, plain_end, signed_fits, plain_fits, fits, signed_read, plain_read, zig, zag, signed_number, plain_number, part_bytes, entry_bytes};
ghost use Rattle.preset.specs.Inputs.{Reads};
ghost use Rattle.preset.specs.Items.{entry_format};

use crate::input::Unread;
use crate::item_limits::ItemLimits;
use crate::items::{Encode, PresetItem};
use crate::number::{put_number, spelt_len};
use charge::{CHANNEL_SETS, ChargeKind, LEAST_VOICES, MOST_VOICES, OCTAVE, PITCH_CLASSES};
use fault::{Fault, Stop};

/// A charge of any kind, as it stands in a preset. A part that the kind lacks is 0. C has the same struct.
#[derive(Clone, Copy, PartialEq, Eq, Debug)]
#[repr(C)]
pub struct Entry {
    /// The voices, -2^31 to 2^31 - 1 in an entry that is allowed: of the kinds voices and both.
    pub signed: i64,
    /// The pitch class, below 12, of the kinds pitch and both; the set of channels, below 2^16, of channels; the cents,
    /// below 1,200, of cents.
    pub plain: u64,
}

// Whether the kind has a signed part.
fn has_signed(kind: ChargeKind) -> bool
    ensures { result ≡ signed_part kind }
{
    match kind {
        ChargeKind::Voices => true,
        ChargeKind::Pitch => false,
        ChargeKind::Channels => false,
        ChargeKind::Both => true,
        ChargeKind::Cents => false,
    }
}

// What the plain part is below, if the kind has one.
fn plain_below(kind: ChargeKind) -> Option<u64>
    ensures { result ≡ plain_end kind }
{
    match kind {
        ChargeKind::Voices => None,
        ChargeKind::Pitch => Some(PITCH_CLASSES as u64),
        ChargeKind::Channels => Some(CHANNEL_SETS),
        ChargeKind::Both => Some(PITCH_CLASSES as u64),
        ChargeKind::Cents => Some(OCTAVE as u64),
    }
}

// The number that a signed value is sent as. No `From`, since both types are the language's.
fn to_number(value: i64) -> u64
    ensures { result ≡ zig value }
{
    if value >= 0 {
        value.unsigned_abs() * 2
    } else {
        (value.unsigned_abs() - 1) * 2 + 1
    }
}

// The signed value that is sent as a number.
fn from_number(number: u64) -> i64
    ensures { result ≡ zag number }
{
    let half = (number / 2) as i64;
    if number % 2 == 0 { half } else { -1 - half }
}

fn read_signed(kind: ChargeKind, input: &mut Unread<'_>) -> Result<i64, Fault>
    ensures { Reads input.old input.new result (signed_read (signed_part kind)) }
{
    if !has_signed(kind) {
        return Ok(0);
    }
    let number = input.number()?;
    Ok(from_number(number))
}

fn read_plain(kind: ChargeKind, input: &mut Unread<'_>) -> Result<u64, Fault>
    ensures { Reads input.old input.new result (plain_read (plain_end kind)) }
{
    let Some(end) = plain_below(kind) else {
        return Ok(0);
    };
    input.field(0, end, Stop::BadEntry)
}

fn fits_signed(kind: ChargeKind, value: i64) -> bool
    ensures { result ≡ signed_fits (signed_part kind) value }
{
    if !has_signed(kind) {
        return value == 0;
    }
    LEAST_VOICES <= value && value <= MOST_VOICES
}

fn fits_plain(kind: ChargeKind, value: u64) -> bool
    ensures { result ≡ plain_fits (plain_end kind) value }
{
    match plain_below(kind) {
        None => value == 0,
        Some(end) => value < end,
    }
}

// Whether the kind allows the entry.
fn is_allowed(kind: ChargeKind, entry: Entry) -> bool
    ensures { result ≡ fits kind entry }
{
    fits_signed(kind, entry.signed) && fits_plain(kind, entry.plain)
}

// The entry, if the kind allows it.
pub(crate) fn allowed(kind: ChargeKind, entry: Entry) -> Option<Entry>
    ensures { result ≡ (if fits kind entry then Some entry else None) }
{
    is_allowed(kind, entry).then_some(entry)
}

// The number that the signed part is sent as, if the kind has one.
fn signed_number(kind: ChargeKind, entry: Entry) -> Option<u64>
    ensures { result ≡ signed_number (signed_part kind) entry.signed }
{
    has_signed(kind).then(|| to_number(entry.signed))
}

// The number that the plain part is sent as, if the kind has one.
fn plain_number(kind: ChargeKind, entry: Entry) -> Option<u64>
    ensures { result ≡ plain_number (plain_end kind) entry.plain }
{
    plain_below(kind).map(|_| entry.plain)
}

// How many bytes a part takes.
fn part_len(part: Option<u64>) -> usize
    ensures count { result ≡ length (part_bytes part) }
    ensures bound { result ≤ 10 }
{
    part.map_or(0, spelt_len)
}

// Writes a part to the front of a strip, where there is room, and answers how many bytes it takes.
fn put_part(part: Option<u64>, out: &mut [u8]) -> usize
    requires { length (part_bytes part) ≤ length out.old }
    ensures count { result ≡ length (part_bytes part) }
    ensures strip { out.new ≡ at_front (part_bytes part) out.old }
{
    match part {
        None => 0,
        Some(number) => put_number(number, out),
    }
}

impl PresetItem for Entry {
    ghost format = { entry_format };

    fn read(limits: ItemLimits, input: &mut Unread<'_>) -> Result<Entry, Fault> {
        let signed = read_signed(limits.kind, input)?;
        let plain = read_plain(limits.kind, input)?;
        Ok(Entry { signed, plain })
    }

    fn fits(self, limits: ItemLimits) -> bool {
        is_allowed(limits.kind, self)
    }

    fn stop() -> Stop {
        Stop::BadEntry
    }
}

impl Encode for Entry {
    ghost bytes = { λ limits e. entry_bytes limits.kind e };

    fn len(self, limits: ItemLimits) -> usize {
        part_len(signed_number(limits.kind, self)) + part_len(plain_number(limits.kind, self))
    }

    fn put(self, limits: ItemLimits, out: &mut [u8]) -> usize {
        let signed = put_part(signed_number(limits.kind, self), out);
        signed + put_part(plain_number(limits.kind, self), &mut out[signed..])
    }
}
