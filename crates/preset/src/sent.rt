// Charges of each kind as entries of a preset.
ghost use Rattle.std.specs.Prelude.{◌≡◌, ◌^◌, if◌then◌else◌, Some, None, nat_lt};
ghost use Rattle.std.specs.Option.{option_map};
ghost use Rattle.charge.specs.Kinds.{class_of};
ghost use Rattle.charge.specs.Ranges.{pitch_end, channel_bits, cents_end};
ghost use Rattle.preset.specs.Entries.{fits};
ghost use Rattle.preset.specs.Sending.{Sending, voices_sending, pitch_sending, channels_sending, both_sending, cents_sent, cents_sending};

use crate::entry::{Entry, allowed};
use charge::{Both, Cents, Channels, Charge, ChargeKind, OCTAVE, Pitch, Voices};

/// A kind of charge that presets have. The member `sending` says which kind it is, and which entry a charge is sent as.
pub trait Sent: Charge {
    ghost sending: { Sending Self };

    /// The kind itself.
    fn kind() -> ChargeKind
        ensures { result ≡ sending.named };

    /// The entry that the charge is sent as. It is no `From`, since clauses go by the member `sending`.
    fn to_entry(self) -> Entry
        ensures { result ≡ sending.entry self };

    /// The charge that is sent as an entry, if the kind allows the entry.
    fn from_entry(entry: Entry) -> Option<Self>
        ensures { option_map sending.entry result
            ≡ (if fits sending.named entry then Some entry else None) };
}

/// Calls a generic function at the charges of a kind that is known only as the program runs. The first type parameter
/// of the function is that of the charges, and is written `_`:
///
/// ```text
/// by_kind!(preset.kind, judge::<_>(preset))    // judge::<Voices>(preset) where the kind is voices, and so on
/// ```
#[macro_export]
macro_rules! by_kind {
    (@at $charge:ident $function:ident::<_ $(, $more:ty)*>($($argument:expr),* $(,)?)) => {
        $function::<$crate::charge::$charge $(, $more)*>($($argument),*)
    };
    ($kind:expr, $($call:tt)+) => {
        match $kind {
            $crate::charge::ChargeKind::Voices => $crate::by_kind!(@at Voices $($call)+),
            $crate::charge::ChargeKind::Pitch => $crate::by_kind!(@at Pitch $($call)+),
            $crate::charge::ChargeKind::Channels => $crate::by_kind!(@at Channels $($call)+),
            $crate::charge::ChargeKind::Both => $crate::by_kind!(@at Both $($call)+),
            $crate::charge::ChargeKind::Cents => $crate::by_kind!(@at Cents $($call)+),
        }
    };
}

// The pitch class of a number, if it is one.
fn pitch_of(plain: u64) -> Option<Pitch>
    ensures { option_map class_of result
        ≡ (if nat_lt plain pitch_end then Some plain else None) }
{
    Pitch::new(u8::try_from(plain).ok()?)
}

// The set of channels of a number, if it is one.
fn channels_of(plain: u64) -> Option<Channels>
    ensures { option_map (λ c. c.bits) result
        ≡ (if nat_lt plain (2 ^ channel_bits) then Some plain else None) }
{
    let bits = u16::try_from(plain).ok()?;
    Some(Channels { bits })
}

// The charge in cents that is sent as a number, if one is.
#[tactic(auto, using(crate::proofs::CentsSent::sent_digits))]
fn cents_of(plain: u64) -> Option<Cents>
    ensures { option_map cents_sent result
        ≡ (if nat_lt plain cents_end then Some plain else None) }
{
    Cents::new(u16::try_from(plain).ok()?)
}

// The number that a charge in cents is sent as.
fn sent_cents(charge: Cents) -> u64
    ensures { result ≡ cents_sent charge }
{
    (charge.value() % OCTAVE) as u64
}

impl Sent for Voices {
    ghost sending = { voices_sending };

    fn kind() -> ChargeKind {
        ChargeKind::Voices
    }

    fn to_entry(self) -> Entry {
        Entry {
            signed: self.count,
            plain: 0,
        }
    }

    fn from_entry(entry: Entry) -> Option<Voices> {
        let entry = allowed(ChargeKind::Voices, entry)?;
        Some(Voices {
            count: entry.signed,
        })
    }
}

impl Sent for Pitch {
    ghost sending = { pitch_sending };

    fn kind() -> ChargeKind {
        ChargeKind::Pitch
    }

    fn to_entry(self) -> Entry {
        Entry {
            signed: 0,
            plain: self.class() as u64,
        }
    }

    fn from_entry(entry: Entry) -> Option<Pitch> {
        let entry = allowed(ChargeKind::Pitch, entry)?;
        pitch_of(entry.plain)
    }
}

impl Sent for Channels {
    ghost sending = { channels_sending };

    fn kind() -> ChargeKind {
        ChargeKind::Channels
    }

    fn to_entry(self) -> Entry {
        Entry {
            signed: 0,
            plain: self.bits as u64,
        }
    }

    fn from_entry(entry: Entry) -> Option<Channels> {
        let entry = allowed(ChargeKind::Channels, entry)?;
        channels_of(entry.plain)
    }
}

impl Sent for Both {
    ghost sending = { both_sending };

    fn kind() -> ChargeKind {
        ChargeKind::Both
    }

    fn to_entry(self) -> Entry {
        Entry {
            signed: self.voices.count,
            plain: self.pitch.class() as u64,
        }
    }

    fn from_entry(entry: Entry) -> Option<Both> {
        let entry = allowed(ChargeKind::Both, entry)?;
        let pitch = pitch_of(entry.plain)?;
        let voices = Voices {
            count: entry.signed,
        };
        Some(Both { voices, pitch })
    }
}

impl Sent for Cents {
    ghost sending = { cents_sending };

    fn kind() -> ChargeKind {
        ChargeKind::Cents
    }

    fn to_entry(self) -> Entry {
        Entry {
            signed: 0,
            plain: sent_cents(self),
        }
    }

    fn from_entry(entry: Entry) -> Option<Cents> {
        let entry = allowed(ChargeKind::Cents, entry)?;
        cents_of(entry.plain)
    }
}
