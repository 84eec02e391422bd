// The kinds of charge, by two numbers each.
use charge::{Both, Cents, Channels, Charge, PITCH_CLASSES, Pitch, Voices};

// A charge has a signed and a plain part. A part that its kind lacks is ignored and given as 0. The plain part of cents
// is their sixteen bits.
pub trait Played: Charge {
    fn from_parts(signed: i64, plain: u16) -> Self;

    fn parts(self) -> (i64, u16);
}

impl Played for Voices {
    fn from_parts(signed: i64, _plain: u16) -> Voices {
        Voices { count: signed }
    }

    fn parts(self) -> (i64, u16) {
        (self.count, 0)
    }
}

impl Played for Pitch {
    fn from_parts(_signed: i64, plain: u16) -> Pitch {
        let class = plain % u16::from(PITCH_CLASSES);
        Pitch::new(class as u8).unwrap_or(Pitch::zero())
    }

    fn parts(self) -> (i64, u16) {
        (0, u16::from(self.class()))
    }
}

impl Played for Channels {
    fn from_parts(_signed: i64, plain: u16) -> Channels {
        Channels { bits: plain }
    }

    fn parts(self) -> (i64, u16) {
        (0, self.bits)
    }
}

impl Played for Both {
    fn from_parts(signed: i64, plain: u16) -> Both {
        Both {
            voices: Voices::from_parts(signed, plain),
            pitch: Pitch::from_parts(signed, plain),
        }
    }

    fn parts(self) -> (i64, u16) {
        (self.voices.count, u16::from(self.pitch.class()))
    }
}

impl Played for Cents {
    fn from_parts(_signed: i64, plain: u16) -> Cents {
        Cents { digits: plain }
    }

    fn parts(self) -> (i64, u16) {
        (0, self.digits)
    }
}
