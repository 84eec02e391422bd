// A preset's bytes shown as a page.
ghost use Rattle.std.specs.Prelude.{◌≡◌, Some, IfSome, IfErr, string_bytes};
ghost use Rattle.fault.specs.Answers.{plainly};
ghost use Rattle.console.specs.Results.{value_as};
ghost use Rattle.console.specs.Encodes.{ShownEncodesBack};
ghost use Rattle.console.specs.Shows.{page_shown, unless_memory, refusal_told};
ghost use Rattle.console.specs.declared.failure.ShowError.TheVariants.{Memory, Refused};

use crate::failure::ShowError;
use crate::writer::page;
use preset::PresetStrips;
use std::alloc::Global;

/// The page of the preset that the bytes are, eight lines of text. Refuses bytes that are no preset, with the code and
/// the place of `preset::read_whole`.
///
/// ```text
/// show_preset(alloc, &[0, 2, 1, 0, 1, 0, 1, 0, 2])
///     "kind voices\nletters 2\nwindow 1\nreach 0\nwidth 1\nrule 0 1\ndensity 0 1\nbytes 9\n"
/// ```
#[tactic(auto, using(crate::proofs::ShownBack::shown_encodes_back))]
pub fn show_preset(alloc: Global, input: &[u8]) -> Result<String, ShowError>
    ensures page { IfSome (unless_memory result)
        (λ s. plainly (value_as string_bytes s) ≡ page_shown input.now) }
    // No memory is needed to tell a refusal.
    ensures refused { IfErr (page_shown input.now) (λ f. refusal_told result ≡ Some f) }
    ensures encodes_back { ShownEncodesBack }
{
    let mut strips = PresetStrips::new();
    let preset = strips.read(input)?;
    let text = page(
        alloc,
        preset.kind,
        preset.header,
        preset.letters,
        preset.entries,
        input.len(),
    )?;
    Ok(text)
}
