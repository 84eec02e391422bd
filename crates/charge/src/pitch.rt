// Charges of kind pitch: pitch classes, of which there are twelve.
ghost use Rattle.std.specs.Prelude.{◌≡◌, ◌<◌, if◌then◌else◌, Some, None, nat_lt};
ghost use Rattle.std.specs.Option.{option_map};
ghost use Rattle.charge.specs.Ranges.{pitch_end};

mod adding;

/// The number of pitch classes.
pub const PITCH_CLASSES: u8 = 12;

/// A pitch class, 0 to 11, added modulo 12. Its field is private, so none above 11 can be made. Each may be an entry.
#[derive(Clone, Copy, PartialEq, Eq, Debug)]
pub struct Pitch {
    class: u8,
    ghost small: { class < pitch_end },
}

impl Pitch {
    ghost use Rattle.charge.specs.Kinds.{class_of};

    /// The pitch class with this number, if it is below `PITCH_CLASSES`.
    pub fn new(class: u8) -> Option<Pitch>
        ensures { option_map class_of result
            ≡ (if nat_lt class pitch_end then Some class else None) }
    {
        if class < PITCH_CLASSES {
            Some(Pitch { class })
        } else {
            None
        }
    }

    /// The number of the class, 0 to 11.
    pub fn class(self) -> u8
        ensures { result ≡ class_of self }
    {
        self.class
    }
}
