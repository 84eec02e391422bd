// The sum of pitch classes, modulo 12.
ghost use Rattle.std.specs.Prelude.{◌≡◌, ◌+◌, ◌-◌, ◌%◌, ◌<◌, ◌↔◌, IsTrue};
ghost use Rattle.charge.specs.Kinds.{pitch};
ghost use Rattle.charge.specs.Ranges.{pitch_end};

use crate::Charge;
use crate::pitch::{PITCH_CLASSES, Pitch};

fn class_sum(a: u8, b: u8) -> u8
    requires { (a < pitch_end) × (b < pitch_end) }
    ensures { result ≡ (a + b) % pitch_end }
{
    (a + b) % PITCH_CLASSES
}

fn class_opposite(a: u8) -> u8
    requires { a < pitch_end }
    ensures { result ≡ (pitch_end - a) % pitch_end }
{
    (PITCH_CLASSES - a) % PITCH_CLASSES
}

// Stands by itself so that the check proves it with no answer, and refuses an edit of it here.
fn equal_classes(a: u8, b: u8) -> bool
    ensures { IsTrue result ↔ (a ≡ b) }
{
    a == b
}

impl Charge for Pitch {
    ghost kind = { pitch };

    fn zero() -> Pitch {
        Pitch { class: 0 }
    }

    fn plus(self, other: Pitch) -> Pitch {
        Pitch {
            class: class_sum(self.class, other.class),
        }
    }

    fn opposite(self) -> Pitch {
        Pitch {
            class: class_opposite(self.class),
        }
    }

    fn same(self, other: Pitch) -> bool {
        equal_classes(self.class, other.class)
    }

    // Each pitch class may be an entry.
    fn is_entry(self) -> bool {
        true
    }
}
