// Playing a script on a preset, by a function for each kind as for judging one.
ghost use Rattle.std.specs.Prelude.{◌≡◌, map};
ghost use Rattle.charge.specs.declared.kind.ChargeKind.TheVariants as kind;
ghost use Rattle.preset.specs.Loads.{preset_of};
ghost use Rattle.preset.specs.Presets.{whole_preset};
ghost use Rattle.capi.specs.Scripts.{script_asks, script_call};
ghost use Rattle.capi.specs.Playing.{PlayTells, PlayedAs};

use crate::answers::{JudgeAnswer, ScriptAnswer, refused};
use crate::play_charges::play_charges;
use crate::script::{Script, ScriptCall};
use charge::{Both, Cents, Channels, Charge, ChargeKind, Pitch, Voices};
use fault::limits::MOST_CELLS;
use preset::{Loaded, PresetStrips, STRIP};

fn play_voices(
    preset: Loaded<'_>,
    script: Script<'_>,
    cells: &mut [u8],
    answers: &mut [ScriptAnswer],
) -> JudgeAnswer
    requires { preset.kind ≡ kind.Voices }
    ensures { PlayedAs kind.Voices (preset_of preset.entry) (script_asks script.entry)
        cells.old cells.new answers.old answers.new result }
{
    let zero = Voices::zero();
    play_charges(
        preset,
        script,
        &mut [zero; STRIP],
        &mut [zero; STRIP],
        &mut [zero; MOST_CELLS],
        &mut [zero; MOST_CELLS],
        &mut [zero; MOST_CELLS],
        cells,
        answers,
    )
}

fn play_pitch(
    preset: Loaded<'_>,
    script: Script<'_>,
    cells: &mut [u8],
    answers: &mut [ScriptAnswer],
) -> JudgeAnswer
    requires { preset.kind ≡ kind.Pitch }
    ensures { PlayedAs kind.Pitch (preset_of preset.entry) (script_asks script.entry)
        cells.old cells.new answers.old answers.new result }
{
    let zero = Pitch::zero();
    play_charges(
        preset,
        script,
        &mut [zero; STRIP],
        &mut [zero; STRIP],
        &mut [zero; MOST_CELLS],
        &mut [zero; MOST_CELLS],
        &mut [zero; MOST_CELLS],
        cells,
        answers,
    )
}

fn play_channels(
    preset: Loaded<'_>,
    script: Script<'_>,
    cells: &mut [u8],
    answers: &mut [ScriptAnswer],
) -> JudgeAnswer
    requires { preset.kind ≡ kind.Channels }
    ensures { PlayedAs kind.Channels (preset_of preset.entry) (script_asks script.entry)
        cells.old cells.new answers.old answers.new result }
{
    let zero = Channels::zero();
    play_charges(
        preset,
        script,
        &mut [zero; STRIP],
        &mut [zero; STRIP],
        &mut [zero; MOST_CELLS],
        &mut [zero; MOST_CELLS],
        &mut [zero; MOST_CELLS],
        cells,
        answers,
    )
}

fn play_both(
    preset: Loaded<'_>,
    script: Script<'_>,
    cells: &mut [u8],
    answers: &mut [ScriptAnswer],
) -> JudgeAnswer
    requires { preset.kind ≡ kind.Both }
    ensures { PlayedAs kind.Both (preset_of preset.entry) (script_asks script.entry)
        cells.old cells.new answers.old answers.new result }
{
    let zero = Both::zero();
    play_charges(
        preset,
        script,
        &mut [zero; STRIP],
        &mut [zero; STRIP],
        &mut [zero; MOST_CELLS],
        &mut [zero; MOST_CELLS],
        &mut [zero; MOST_CELLS],
        cells,
        answers,
    )
}

fn play_cents(
    preset: Loaded<'_>,
    script: Script<'_>,
    cells: &mut [u8],
    answers: &mut [ScriptAnswer],
) -> JudgeAnswer
    requires { preset.kind ≡ kind.Cents }
    ensures { PlayedAs kind.Cents (preset_of preset.entry) (script_asks script.entry)
        cells.old cells.new answers.old answers.new result }
{
    let zero = Cents::zero();
    play_charges(
        preset,
        script,
        &mut [zero; STRIP],
        &mut [zero; STRIP],
        &mut [zero; MOST_CELLS],
        &mut [zero; MOST_CELLS],
        &mut [zero; MOST_CELLS],
        cells,
        answers,
    )
}

// Judges a preset of any kind, and plays a script on it where it holds.
fn play_kind(
    preset: Loaded<'_>,
    script: Script<'_>,
    cells: &mut [u8],
    answers: &mut [ScriptAnswer],
) -> JudgeAnswer
    ensures { PlayedAs preset.entry.kind (preset_of preset.entry) (script_asks script.entry)
        cells.old cells.new answers.old answers.new result }
{
    match preset.kind {
        ChargeKind::Voices => play_voices(preset, script, cells, answers),
        ChargeKind::Pitch => play_pitch(preset, script, cells, answers),
        ChargeKind::Channels => play_channels(preset, script, cells, answers),
        ChargeKind::Both => play_both(preset, script, cells, answers),
        ChargeKind::Cents => play_cents(preset, script, cells, answers),
    }
}

/// Judges the preset that the bytes are, and where it holds answers each call of a script, in the order of the script,
/// at the call's place in the strip of answers. Rings are opened in the cells, with letters of `rings`. Refused as
/// `ringbench_read` by the bytes; then by 12 at place 0 where there are fewer answers than calls. A break writes
/// nothing either.
#[unsafe(no_mangle)]
pub extern "C" fn ringbench_play(
    bytes: &[u8],
    script: &[ScriptCall],
    rings: &[u8],
    cells: &mut [u8],
    answers: &mut [ScriptAnswer],
) -> JudgeAnswer
    ensures { PlayTells (whole_preset bytes.now) (map (script_call rings.now) script.now)
        cells.old cells.new answers.old answers.new result }
{
    let mut strips = PresetStrips::new();
    let script = Script {
        calls: script,
        rings,
    };
    match strips.read(bytes) {
        Ok(preset) => play_kind(preset, script, cells, answers),
        Err(fault) => refused(fault),
    }
}
