// Putting a letter into a cell of the open ring.
ghost use Rattle.std.specs.Prelude.{◌≡◌, min, take, Ok, Err, if◌then◌else◌, nat_lt, slice_set};
ghost use Rattle.fault.specs.declared.Stop.TheVariants.{BadLetter};
ghost use Rattle.fault.specs.Answers.{plainly};
ghost use Rattle.fault.specs.Refusals.{refused_at};
ghost use Rattle.player.specs.Calls.PlayerCall.{touches};
ghost use Rattle.player.specs.Answers.{done_said, Stays};
ghost use Rattle.player.specs.Promises.{open_ring, ring_len, touch_strips, touch_gain, tested_by, Books, DoesOn};

use crate::ledger::book_up_to;
use crate::playing::Playing;
use crate::sites::OppositeCharges;
use automaton::{Density, Rule};
use charge::Charge;
use fault::{Fault, Stop};

impl<C: Charge, R: Rule, D: Density<C>> Playing<C, R, D> {
    // How many sites have a cell of the ring in their window: as many as the window has cells, or all of them. Each of
    // them stands at the cell or before it.
    fn holders(&self) -> usize
        ensures { result ≡ min (open_ring self.now).bench.density.k (ring_len self.now) }
    {
        self.bench.density().k().min(self.len)
    }

    // The refusal of a touch by its letter, which comes after those of the cells.
    fn check_letter(&self, letter: u8) -> Result<(), Fault>
        ensures { plainly result
            ≡ (if nat_lt letter (open_ring self.now).bench.rule.q
            then Ok tt else Err (refused_at BadLetter (ring_len self.now))) }
    {
        if (letter as usize) < self.q() {
            Ok(())
        } else {
            Err(Stop::BadLetter.at(self.len))
        }
    }

    // The refusal of a touch, by the strips that it is handed.
    fn check_touch(&self, site: usize, letter: u8, cells: &[u8], touched: &[C]) -> Result<(), Fault>
        ensures { plainly result
            ≡ tested_by (open_ring self.now) (touches site letter)
            (touch_strips cells.now touched.now) }
    {
        Stop::ShortStrip.unless(self.len <= cells.len().min(touched.len()))?;
        Stop::BadPosition.unless(site < self.len)?;
        self.check_letters(cells).and(self.check_letter(letter))
    }

    // Puts the letter into the cell, and books at each site its charge afterwards less its charge before.
    fn touch_on(&self, site: usize, letter: u8, cells: &mut [u8], touched: &mut [C])
        requires { tested_by (open_ring self.now) (touches site letter)
            (touch_strips cells.old touched.old)
            ≡ Ok tt }
        ensures cells { cells.new ≡ slice_set cells.old site letter }
        ensures touched { let ring = open_ring self.now in
            let old = take ring.len cells.old in
            let gain = touch_gain ring.bench site letter old in
            Books C.kind ring.len gain touched.old touched.new }
    {
        let count = self.holders();
        let before = OppositeCharges {
            charges: &self.sites(cells),
        };
        book_up_to(self.len, touched, site, count, &before);
        cells[site] = letter;
        book_up_to(self.len, touched, site, count, &self.sites(cells));
    }

    /// Puts a letter into a cell of the ring of L cells. At each site it adds to touched the site's charge afterwards
    /// less its charge before, which is zero but where the site's window holds the cell.
    ///
    /// Refused by the first that fits: `Stop::ShortStrip` where a strip has fewer than L entries and
    /// `Stop::BadPosition` where the cell is not below L, both at place 0, and `Stop::BadLetter` at the first cell that
    /// holds no letter, or at place L where all do and the one to be put is none.
    pub fn touch(
        &self,
        site: usize,
        letter: u8,
        cells: &mut [u8],
        touched: &mut [C],
    ) -> Result<(), Fault>
        ensures promise { DoesOn (open_ring self.now) (touches site letter)
            (touch_strips cells.old touched.old) (done_said C.kind result)
            (touch_strips cells.new touched.new) }
        ensures past { Stays result (open_ring self.now).len touched.old touched.new }
    {
        self.check_touch(site, letter, cells, touched)?;
        self.touch_on(site, letter, cells, touched);
        Ok(())
    }
}
