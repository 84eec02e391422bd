// The kinds of charge, made of two numbers and printed.
use charge::{Both, Cents, Channels, Charge, Pitch, Voices};
use console::EntryWord;
use preset::Sent;

pub trait Tried: Sent {
    // The charge of a signed and a plain part, which may be no entry. The plain part of cents is their sixteen bits.
    fn from_parts(signed: i64, plain: u64) -> Self;

    // What strips are filled with before a call.
    fn mark() -> Self;

    // The charge as it is printed.
    fn word(self) -> EntryWord {
        EntryWord {
            kind: Self::kind(),
            entry: self.to_entry(),
        }
    }
}

fn pitch(plain: u64) -> Pitch {
    let class = u8::try_from(plain).unwrap_or(0);
    Pitch::new(class).unwrap_or(Pitch::zero())
}

impl Tried for Voices {
    fn from_parts(signed: i64, plain: u64) -> Voices {
        Voices { count: signed }
    }

    fn mark() -> Voices {
        Voices { count: 77 }
    }
}

impl Tried for Pitch {
    fn from_parts(signed: i64, plain: u64) -> Pitch {
        pitch(plain)
    }

    fn mark() -> Pitch {
        pitch(7)
    }
}

impl Tried for Channels {
    fn from_parts(signed: i64, plain: u64) -> Channels {
        Channels {
            bits: u16::try_from(plain).unwrap_or(0),
        }
    }

    fn mark() -> Channels {
        Channels { bits: 77 }
    }
}

impl Tried for Both {
    fn from_parts(signed: i64, plain: u64) -> Both {
        Both {
            voices: Voices { count: signed },
            pitch: pitch(plain),
        }
    }

    fn mark() -> Both {
        Both {
            voices: Voices { count: 77 },
            pitch: pitch(7),
        }
    }
}

impl Tried for Cents {
    fn from_parts(signed: i64, plain: u64) -> Cents {
        Cents {
            digits: u16::try_from(plain).unwrap_or(0),
        }
    }

    fn mark() -> Cents {
        Cents { digits: 0x0077 }
    }
}
