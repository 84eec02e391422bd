// One step of the open ring.
ghost use Rattle.std.specs.Prelude.{◌≡◌, ◌≤◌, length, take, Ok};
ghost use Rattle.fault.specs.Answers.{plainly, at_front};
ghost use Rattle.automaton.specs.Making.{ring_checked};
ghost use Rattle.automaton.specs.Meanings.{next};
ghost use Rattle.player.specs.Calls.PlayerCall.{steps};
ghost use Rattle.player.specs.Answers.{done_said, Stays};
ghost use Rattle.player.specs.Promises.{open_ring, ring_len, step_strips, tested_by, site_crossings, Books, DoesOn};

use crate::ledger::book;
use crate::playing::Playing;
use crate::sites::CrossingCharges;
use automaton::{Density, Rule, next_ring};
use bench::NextWords;
use charge::Charge;
use fault::{Fault, Stop};

impl<C: Charge, R: Rule, D: Density<C>> Playing<C, R, D> {
    // The refusal of a step, by the strips that it is handed.
    fn check_step(&self, cells: &[u8], spare: &[u8], crossed: &[C]) -> Result<(), Fault>
        ensures { plainly result
            ≡ tested_by (open_ring self.now) steps (step_strips cells.now spare.now crossed.now) }
    {
        let room = cells.len().min(spare.len()).min(crossed.len());
        Stop::ShortStrip.unless(self.len <= room)?;
        self.check_letters(cells)
    }

    // Keeps the cells in the spare strip, and writes the next letters.
    fn advance(&self, cells: &mut [u8], spare: &mut [u8]) -> Result<(), Fault>
        requires room { (ring_len self.now ≤ length cells.old)
            × (ring_len self.now ≤ length spare.old) }
        requires ring { let ring = open_ring self.now in
            let old = take ring.len cells.old in
            ring_checked ring.bench.rule.q (length cells.old) old ≡ Ok old }
        ensures answer { plainly result ≡ Ok tt }
        ensures cells { let ring = open_ring self.now in
            cells.new ≡ at_front (next ring.bench.rule (take ring.len cells.old)) cells.old }
        ensures spare { spare.new ≡ at_front (take (ring_len self.now) cells.old) spare.old }
    {
        let spare = &mut spare[..self.len];
        spare.copy_from_slice(&cells[..self.len]);
        next_ring(self.bench.rule(), spare, cells)
    }

    // Books what crosses into each site, and advances the cells.
    fn step_on(&self, cells: &mut [u8], spare: &mut [u8], crossed: &mut [C]) -> Result<(), Fault>
        requires { tested_by (open_ring self.now) steps
            (step_strips cells.old spare.old crossed.old) ≡ Ok tt }
        ensures answer { plainly result ≡ Ok tt }
        ensures cells { let ring = open_ring self.now in
            cells.new ≡ at_front (next ring.bench.rule (take ring.len cells.old)) cells.old }
        ensures spare { spare.new ≡ at_front (take (ring_len self.now) cells.old) spare.old }
        ensures crossed { let ring = open_ring self.now in
            let flows = site_crossings ring.bench (take ring.len cells.old) in
            Books C.kind ring.len flows crossed.old crossed.new }
    {
        let mut room = NextWords::new();
        book(
            self.len,
            crossed,
            &CrossingCharges {
                crossings: self.bench.crossings(self.len, &mut room),
                ring: self.sites(cells).ring,
            },
        );
        self.advance(cells, spare)
    }

    /// One step of the rule on the ring of L cells: adds to crossed, at each site, what crosses into it; then the cells
    /// as they stand go to the spare strip, and the next letters to the cells. Cars that drive on where a gap is in
    /// front of them (elementary rule 184), a car one voice:
    ///
    /// ```text
    /// before: cells 1 1 0 0, crossed 0 0 0 0
    /// after:  cells 1 0 1 0, crossed 0 0 1 0, spare 1 1 0 0
    /// ```
    ///
    /// Refused by `Stop::ShortStrip` at place 0 where a strip has fewer than L entries, or else by `Stop::BadLetter` at
    /// the first cell that holds no letter.
    pub fn step(&self, cells: &mut [u8], spare: &mut [u8], crossed: &mut [C]) -> Result<(), Fault>
        ensures promise { DoesOn (open_ring self.now) steps
            (step_strips cells.old spare.old crossed.old) (done_said C.kind result)
            (step_strips cells.new spare.new crossed.new) }
        ensures past { Stays result (open_ring self.now).len crossed.old crossed.new }
    {
        self.check_step(cells, spare, crossed)?;
        self.step_on(cells, spare, crossed)
    }
}
