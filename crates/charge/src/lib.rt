// Kinds of charge: what a ring keeps the total of. Assumes nothing.
#![tactic(auto)]

ghost use Rattle.std.specs.Prelude.{◌≡◌, ◌↔◌, IsTrue};
ghost use Rattle.charge.specs.Groups.{Kind, minus};

mod both;
mod cents;
mod channels;
mod kind;
mod pitch;
mod voices;

pub use both::Both;
pub use cents::{Cents, OCTAVE};
pub use channels::{CHANNEL_SETS, Channels};
pub use kind::{ChargeKind, UnknownKind};
pub use pitch::{PITCH_CLASSES, Pitch};
pub use voices::{LEAST_VOICES, MOST_VOICES, Voices};

/// A kind of charge: each charge means an element of a commutative group. The member `kind` holds the group with its
/// laws, so an impl proves them, and code above is proved from them alone: the bench, the judge and the player are to
/// be had for every kind that has this trait.
pub trait Charge: Copy {
    ghost kind: { Kind Self };

    /// The charge that adds nothing.
    fn zero() -> Self
        ensures { kind.means result ≡ kind.group.zero };

    /// The sum of two charges.
    fn plus(self, other: Self) -> Self
        ensures { kind.means result ≡ kind.group.add (kind.means self) (kind.means other) };

    /// The charge that gives zero where it is added to this one.
    fn opposite(self) -> Self
        ensures { kind.means result ≡ kind.group.neg (kind.means self) };

    /// Two charges are the same exactly when their meanings are equal.
    fn same(self, other: Self) -> bool
        ensures { IsTrue result ↔ (kind.means self ≡ kind.means other) };

    /// Whether the charge may be an entry of a density. Of two charges with one meaning, one may be and the other
    /// not.
    fn is_entry(self) -> bool
        ensures { result ≡ kind.entry self };
}

/// One charge less another: the sum of the first and the second's opposite.
pub fn difference<C: Charge>(a: C, b: C) -> C
    ensures { C.kind.means result ≡ minus C.kind.group (C.kind.means a) (C.kind.means b) }
{
    a.plus(b.opposite())
}
