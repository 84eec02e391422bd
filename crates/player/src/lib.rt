// The player: rings with meters, opened from a bench that holds. Assumes nothing.
//
// A ring of L cells is played on strips of the caller's. `cells` and `spare` hold letters, a byte each; `opening`,
// `crossed` and `touched` hold charges, one a site, and a ring has as many sites as cells. A call works on the first L
// entries of the strips that it takes, and leaves those past L. A refusal writes nothing. Its place is 0, but that of a
// bad letter: which letter, counted from 0.
//
// Strips are lent one by one, and make no struct: a struct that joins several `&mut` is lost where it is lent itself.
// Strips of charges are taken for writing even where they are only read, since a `Ledger` takes its strip so.
#![tactic(auto)]

mod arc;
mod call;
mod checking;
mod closing;
mod ledger;
mod meters;
mod opening;
mod performing;
mod player;
mod playing;
mod reading;
mod sites;
mod stepping;
mod touching;

pub use arc::ArcReading;
pub use call::{Answer, Call};
pub use ledger::Ledger;
pub use meters::Reading;
pub use performing::{Performed, perform};
pub use player::{Player, PlayerOf, obey};
pub use playing::Playing;
