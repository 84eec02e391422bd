// The delivered kinds of charge and their numbers in presets.
ghost use Rattle.std.specs.Prelude.{◌≡◌};
ghost use Rattle.std.specs.Option.{ok_or};
ghost use Rattle.charge.specs.Numbers.{number_of, kind_of};

/// Which of the delivered kinds a preset uses, by its number there.
#[derive(Clone, Copy, PartialEq, Eq, Debug)]
pub enum ChargeKind {
    /// Whole numbers modulo 2^64: [`Voices`](crate::Voices).
    Voices = 0,
    /// Pitch classes: [`Pitch`](crate::Pitch).
    Pitch = 1,
    /// Sets of channels: [`Channels`](crate::Channels).
    Channels = 2,
    /// A voices charge and a pitch charge: [`Both`](crate::Both).
    Both = 3,
    /// Cents of an octave, in decimal digits: [`Cents`](crate::Cents).
    Cents = 4,
}

/// A number that no kind has.
#[derive(Clone, Copy, PartialEq, Eq, Debug)]
pub struct UnknownKind {
    /// The number, which is above 4.
    pub number: u64,
}

// The kind's number in presets.
impl From<ChargeKind> for u64 {
    ghost from_gives = { λ kind number. number ≡ number_of kind };

    fn from(kind: ChargeKind) -> u64 {
        kind as u64
    }
}

// The kind that has a number, if any has.
impl TryFrom<u64> for ChargeKind {
    type Error = UnknownKind;

    ghost try_from_gives = { λ number kind. kind
        ≡ ok_or (kind_of number) (record { number = number }) };

    fn try_from(number: u64) -> Result<ChargeKind, UnknownKind> {
        match number {
            0 => Ok(ChargeKind::Voices),
            1 => Ok(ChargeKind::Pitch),
            2 => Ok(ChargeKind::Channels),
            3 => Ok(ChargeKind::Both),
            4 => Ok(ChargeKind::Cents),
            _ => Err(UnknownKind { number }),
        }
    }
}
