// Judging a preset. Each kind has a function of its own, which makes the arrays of its charges: those of all kinds in
// one would take the stack of all.
ghost use Rattle.std.specs.Prelude.{◌≡◌};
ghost use Rattle.charge.specs.declared.kind.ChargeKind.TheVariants as kind;
ghost use Rattle.preset.specs.Loads.{preset_of};
ghost use Rattle.preset.specs.Presets.{whole_preset};
ghost use Rattle.capi.specs.Judging.{JudgeTells, JudgedAs};

use crate::answers::{JudgeAnswer, refused};
use crate::judge_charges::judge_charges;
use charge::{Both, Cents, Channels, Charge, ChargeKind, Pitch, Voices};
use preset::{Entry, Loaded, PresetStrips, STRIP};

fn judge_voices(preset: Loaded<'_>, crossings: &mut [Entry], ring: &mut [u8]) -> JudgeAnswer
    requires { preset.kind ≡ kind.Voices }
    ensures { JudgedAs kind.Voices (preset_of preset.entry)
        crossings.old crossings.new ring.old ring.new result }
{
    let zero = Voices::zero();
    judge_charges(
        preset,
        &mut [zero; STRIP],
        &mut [zero; STRIP],
        crossings,
        ring,
    )
}

fn judge_pitch(preset: Loaded<'_>, crossings: &mut [Entry], ring: &mut [u8]) -> JudgeAnswer
    requires { preset.kind ≡ kind.Pitch }
    ensures { JudgedAs kind.Pitch (preset_of preset.entry)
        crossings.old crossings.new ring.old ring.new result }
{
    let zero = Pitch::zero();
    judge_charges(
        preset,
        &mut [zero; STRIP],
        &mut [zero; STRIP],
        crossings,
        ring,
    )
}

fn judge_channels(preset: Loaded<'_>, crossings: &mut [Entry], ring: &mut [u8]) -> JudgeAnswer
    requires { preset.kind ≡ kind.Channels }
    ensures { JudgedAs kind.Channels (preset_of preset.entry)
        crossings.old crossings.new ring.old ring.new result }
{
    let zero = Channels::zero();
    judge_charges(
        preset,
        &mut [zero; STRIP],
        &mut [zero; STRIP],
        crossings,
        ring,
    )
}

fn judge_both(preset: Loaded<'_>, crossings: &mut [Entry], ring: &mut [u8]) -> JudgeAnswer
    requires { preset.kind ≡ kind.Both }
    ensures { JudgedAs kind.Both (preset_of preset.entry)
        crossings.old crossings.new ring.old ring.new result }
{
    let zero = Both::zero();
    judge_charges(
        preset,
        &mut [zero; STRIP],
        &mut [zero; STRIP],
        crossings,
        ring,
    )
}

fn judge_cents(preset: Loaded<'_>, crossings: &mut [Entry], ring: &mut [u8]) -> JudgeAnswer
    requires { preset.kind ≡ kind.Cents }
    ensures { JudgedAs kind.Cents (preset_of preset.entry)
        crossings.old crossings.new ring.old ring.new result }
{
    let zero = Cents::zero();
    judge_charges(
        preset,
        &mut [zero; STRIP],
        &mut [zero; STRIP],
        crossings,
        ring,
    )
}

// Judges a preset of any kind.
#[tactic(auto, using(crate::proofs::OfKind::judged_as))]
fn judge_kind(preset: Loaded<'_>, crossings: &mut [Entry], ring: &mut [u8]) -> JudgeAnswer
    ensures { JudgedAs preset.entry.kind (preset_of preset.entry)
        crossings.old crossings.new ring.old ring.new result }
{
    match preset.kind {
        ChargeKind::Voices => judge_voices(preset, crossings, ring),
        ChargeKind::Pitch => judge_pitch(preset, crossings, ring),
        ChargeKind::Channels => judge_channels(preset, crossings, ring),
        ChargeKind::Both => judge_both(preset, crossings, ring),
        ChargeKind::Cents => judge_cents(preset, crossings, ring),
    }
}

/// Judges the preset that the bytes are. In either verdict the q^(n+k-2) crossings stand at the front of a strip
/// afterwards, and on a break the ring that shows it at the front of another. Refused as `ringbench_read` by the bytes;
/// then by 12 at place 0 where the crossings or the ring, of up to 2(n + k) - 3 cells, have no room.
#[unsafe(no_mangle)]
pub extern "C" fn ringbench_judge(
    bytes: &[u8],
    crossings: &mut [Entry],
    ring: &mut [u8],
) -> JudgeAnswer
    ensures { JudgeTells (whole_preset bytes.now)
        crossings.old crossings.new ring.old ring.new result }
{
    let mut strips = PresetStrips::new();
    match strips.read(bytes) {
        Ok(preset) => judge_kind(preset, crossings, ring),
        Err(fault) => refused(fault),
    }
}
