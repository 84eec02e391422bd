// The meters of an arc of sites.
ghost use Rattle.std.specs.Prelude.{◌≡◌, ◌+◌, ◌%◌, ◌<◌, ◌≤◌, ◌↔◌, length, IsTrue};
ghost use Rattle.std.specs.Option.{option_map};
ghost use Rattle.player.specs.Arcs.{arc_of, arc_means};
ghost use Rattle.player.specs.Logs.{AddsUp};

use crate::meters::Reading;
use charge::{Charge, difference};

/// What the meters of an arc of sites read.
#[derive(Clone, Copy, PartialEq, Eq, Debug)]
pub struct ArcReading<C> {
    /// The charge of its sites when the ring was opened.
    pub opening: C,
    /// What has crossed into its first site since.
    pub into: C,
    /// What has crossed out of its last site, into the one after it.
    pub out: C,
    /// What touches have added to its sites.
    pub touched: C,
    /// The charge of its sites as the cells stand.
    pub now: C,
}

// The site `offset` sites after another of a ring.
fn site_after(count: usize, first: usize, offset: usize) -> usize
    requires { (first < count) × (offset ≤ count) }
    ensures is { result ≡ (first + offset) % count }
    ensures on_ring { result < count }
{
    let rest = count - first;
    if offset < rest {
        first + offset
    } else {
        offset - rest
    }
}

impl<C: Charge> ArcReading<C> {
    /// The arc of `len` sites from site `first` on, going round, by the readings of all sites of a ring, one a site and
    /// in their order. `None` where the ring has no site `first` or fewer than `len` sites.
    pub fn over(readings: &[Reading<C>], first: usize, len: usize) -> Option<ArcReading<C>>
        ensures { option_map (arc_means C.kind) result ≡ arc_of C.kind readings.now first len }
    {
        if first >= readings.len() || len > readings.len() {
            return None;
        }
        let mut opening = C::zero();
        let mut touched = C::zero();
        let mut now = C::zero();
        for offset in 0..len {
            let reading = readings[site_after(readings.len(), first, offset)];
            opening = opening.plus(reading.opening);
            touched = touched.plus(reading.touched);
            now = now.plus(reading.now);
        }
        Some(ArcReading {
            opening,
            into: readings[first].crossed,
            out: readings[site_after(readings.len(), first, len)].crossed,
            touched,
            now,
        })
    }

    /// Whether the charge now is that at opening, plus what crossed in, less what crossed out, plus what was touched:
    /// so does every arc of a ring whose strips are handed on from call to call.
    pub fn adds_up(self) -> bool
        ensures { IsTrue result ↔ AddsUp C.kind.group (arc_means C.kind self) }
    {
        let moved = self.opening.plus(difference(self.into, self.out));
        self.now.same(moved.plus(self.touched))
    }
}
