// Closing the open ring.
ghost use Rattle.std.specs.Prelude.{◌≡◌};
ghost use Rattle.player.specs.Promises.{open_ring, holding_under, ClosesAnywhere};

use crate::playing::Playing;
use automaton::{Density, Rule};
use bench::Holding;
use charge::Charge;

impl<C: Charge, R: Rule, D: Density<C>> Playing<C, R, D> {
    /// Closes the ring, and gives back the holding bench that it was opened on, whose type says that it holds. No strip
    /// is looked at, and none is written: in every log where this ring stands the call may follow, whatever the strips
    /// are.
    pub fn close(self) -> Holding<C, R, D>
        ensures holding { result ≡ holding_under self }
        ensures strips { ClosesAnywhere (open_ring self) }
    {
        let Playing { bench, len: _ } = self;
        bench
    }
}
