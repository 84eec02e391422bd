// Reading the meters of a site of the open ring.
ghost use Rattle.std.specs.Prelude.{◌≡◌, Ok};
ghost use Rattle.fault.specs.Answers.{plainly};
ghost use Rattle.player.specs.Calls.PlayerCall.{reads};
ghost use Rattle.player.specs.Answers.{reading_means, read_said};
ghost use Rattle.player.specs.Promises.{open_ring, meter_strips, tested_by, DoesOn};

use crate::ledger::read_strip;
use crate::meters::Reading;
use crate::playing::Playing;
use crate::sites::SiteCharges;
use automaton::{Density, Rule};
use charge::Charge;
use fault::{Fault, Stop};

impl<C: Charge, R: Rule, D: Density<C>> Playing<C, R, D> {
    // The refusal of a read, by the strips that it is handed.
    fn check_read(
        &self,
        site: usize,
        cells: &[u8],
        opening: &[C],
        crossed: &[C],
        touched: &[C],
    ) -> Result<(), Fault>
        ensures { plainly result
            ≡ tested_by (open_ring self.now) (reads site)
            (meter_strips cells.now opening.now crossed.now touched.now) }
    {
        let room = cells
            .len()
            .min(opening.len())
            .min(crossed.len())
            .min(touched.len());
        Stop::ShortStrip.unless(self.len <= room)?;
        Stop::BadPosition.unless(site < self.len)?;
        self.check_letters(cells)
    }

    // What a read that has passed its tests answers.
    fn read_on(
        &self,
        site: usize,
        cells: &[u8],
        opening: &mut [C],
        crossed: &mut [C],
        touched: &mut [C],
    ) -> Reading<C>
        requires { tested_by (open_ring self.now) (reads site)
            (meter_strips cells.now opening.old crossed.old touched.old)
            ≡ Ok tt }
        ensures promise { DoesOn (open_ring self.now) (reads site)
            (meter_strips cells.now opening.old crossed.old touched.old)
            (reading_means C.kind result)
            (meter_strips cells.now opening.new crossed.new touched.new) }
        ensures kept { (opening.new ≡ opening.old) × (crossed.new ≡ crossed.old)
            × (touched.new ≡ touched.old) }
    {
        Reading {
            opening: read_strip(opening, site),
            crossed: read_strip(crossed, site),
            touched: read_strip(touched, site),
            now: self.sites(cells).charge_at(site),
        }
    }

    /// Reads the meters of a site of the ring of L cells. Nothing is written.
    ///
    /// Refused by the first that fits: `Stop::ShortStrip` where a strip has fewer than L entries and
    /// `Stop::BadPosition` where the site is not below L, both at place 0, and `Stop::BadLetter` at the first cell that
    /// holds no letter.
    pub fn read(
        &self,
        site: usize,
        cells: &[u8],
        opening: &mut [C],
        crossed: &mut [C],
        touched: &mut [C],
    ) -> Result<Reading<C>, Fault>
        ensures promise { DoesOn (open_ring self.now) (reads site)
            (meter_strips cells.now opening.old crossed.old touched.old) (read_said C.kind result)
            (meter_strips cells.now opening.new crossed.new touched.new) }
        ensures kept { (opening.new ≡ opening.old) × (crossed.new ≡ crossed.old)
            × (touched.new ≡ touched.old) }
    {
        self.check_read(site, cells, opening, crossed, touched)?;
        Ok(self.read_on(site, cells, opening, crossed, touched))
    }
}
