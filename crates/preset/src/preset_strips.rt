// Strips for the largest preset, and the preset that is read into them.
use crate::entry::Entry;
use crate::header::Head;
use crate::loaded::Loaded;
use crate::reader::{STRIP, read_parts};
use fault::Fault;

/// A strip for the letters and one for the entries of a preset, 4,096 of each, with room for the largest: 68 KiB.
#[derive(Drop)]
pub struct PresetStrips {
    letters: [u8; STRIP],
    entries: [Entry; STRIP],
}

impl PresetStrips {
    ghost use Rattle.std.specs.Prelude.{◌≡◌, Ok, pos, replicate};
    ghost use Rattle.std.specs.Borrow.{sem};
    ghost use Rattle.fault.specs.Answers.{plainly, and_then};
    ghost use Rattle.fault.specs.Limits.{most_words};
    ghost use Rattle.preset.specs.Heads.{head_of, heads};
    ghost use Rattle.preset.specs.Loads.{loaded, preset_of};
    ghost use Rattle.preset.specs.Presets.{whole_preset};
    ghost use Rattle.preset.specs.Sound.{Sound};
    ghost use Rattle.preset.specs.PresetStrips.{letters_of, entries_of, EndsAs, ReadInto};
    ghost use Rattle.preset.specs.Writes.{header_fronts};

    /// Strips of zeros.
    pub fn new() -> PresetStrips
        ensures letters { letters_of result ≡ replicate most_words 0 }
        ensures entries { entries_of result
            ≡ replicate most_words (record { signed = pos 0; plain = 0 }) }
    {
        PresetStrips {
            letters: [0; STRIP],
            entries: [Entry {
                signed: 0,
                plain: 0,
            }; STRIP],
        }
    }

    // Reads the preset that the whole input is, and answers its head. A refusal leaves the strips as they were.
    fn fill(&mut self, input: &[u8]) -> Result<Head, Fault>
        ensures head { plainly (heads result) ≡ and_then (whole_preset input.now) (λ p. Ok p.head) }
        ensures strips { ReadInto self.old (whole_preset input.now) self.new }
    {
        let head = read_parts(input, &mut self.letters, &mut self.entries)?;
        Ok(head)
    }

    // The preset that was read, by its head.
    fn loaded(&self, head: Head) -> Loaded<'_>
        requires { Sound
            (header_fronts (head_of head) (letters_of self.now) (entries_of self.now)) }
        ensures { preset_of result
            ≡ header_fronts (head_of head) (letters_of self.now) (entries_of self.now) }
    {
        Loaded::from_fronts(head, &self.letters, &self.entries)
    }

    /// Reads the preset that the whole input is, and lends it on the strips.
    ///
    /// # Errors
    ///
    /// As `read_whole`, but for `ShortStrip`: there is room for any preset.
    ///
    /// ```rust
    /// let mut strips = PresetStrips::new();
    /// let preset = strips.read(bytes)?;
    /// ```
    pub fn read(&mut self, input: &[u8]) -> Result<Loaded<'_>, Fault>
        ensures answer { loaded result ≡ whole_preset input.now }
        ensures* strips { sem 𝓛 (EndsAs self.entry (ReadInto self.old (whole_preset input.now))) }
    {
        let head = self.fill(input)?;
        Ok(self.loaded(head))
    }
}
