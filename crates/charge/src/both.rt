// Charges of kind both: a voices charge and a pitch charge.
ghost use Rattle.charge.specs.Kinds.{both};

use crate::Charge;
use crate::pitch::Pitch;
use crate::voices::Voices;

/// A voices charge and a pitch charge, each of which is added by itself.
#[derive(Clone, Copy, PartialEq, Eq, Debug)]
pub struct Both {
    /// The part in voices.
    pub voices: Voices,
    /// The part in pitch classes.
    pub pitch: Pitch,
}

impl Charge for Both {
    ghost kind = { both };

    fn zero() -> Both {
        Both {
            voices: Voices::zero(),
            pitch: Pitch::zero(),
        }
    }

    fn plus(self, other: Both) -> Both {
        Both {
            voices: self.voices.plus(other.voices),
            pitch: self.pitch.plus(other.pitch),
        }
    }

    fn opposite(self) -> Both {
        Both {
            voices: self.voices.opposite(),
            pitch: self.pitch.opposite(),
        }
    }

    fn same(self, other: Both) -> bool {
        self.voices.same(other.voices) && self.pitch.same(other.pitch)
    }

    fn is_entry(self) -> bool {
        self.voices.is_entry() && self.pitch.is_entry()
    }
}
