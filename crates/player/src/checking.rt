// The tests of an open ring that the calls share, and its sites.
ghost use Rattle.std.specs.Prelude.{◌≡◌, ◌≤◌, length, take, nat_lt};
ghost use Rattle.fault.specs.declared.Stop.TheVariants.{BadLetter};
ghost use Rattle.fault.specs.Answers.{plainly};
ghost use Rattle.fault.specs.Checks.{each_fits};
ghost use Rattle.automaton.specs.Words.{Letters};

use crate::playing::Playing;
use crate::sites::Sites;
use automaton::{Density, Ring, Rule};
use charge::Charge;
use fault::Fault;

impl<C: Charge, R: Rule, D: Density<C>> Playing<C, R, D> {
    ghost use Rattle.player.specs.Promises.{open_ring, ring_len, holding_under};

    // The alphabet size.
    pub(crate) fn q(&self) -> usize
        ensures { result ≡ (open_ring self.now).bench.rule.q }
    {
        self.bench.rule().q()
    }

    // The refusal of the first cell that has no letter.
    pub(crate) fn check_letters(&self, cells: &[u8]) -> Result<(), Fault>
        requires { ring_len self.now ≤ length cells.now }
        ensures { let ring = open_ring self.now in
            plainly result
            ≡ each_fits (λ a. nat_lt a ring.bench.rule.q) BadLetter 0 (take ring.len cells.now) }
    {
        Ring::under(self.bench.rule(), self.len, &cells[..self.len])?;
        Ok(())
    }

    // The sites of the ring in these cells.
    pub(crate) fn sites<'b, 'r>(&'b self, cells: &'r [u8]) -> Sites<'b, 'r, C, R, D>
        requires room { ring_len self.now ≤ length cells.now }
        requires letters { let ring = open_ring self.now in
            Letters ring.bench.rule.q (take ring.len cells.now) }
        ensures bench { result.bench.now ≡ holding_under self.now }
        ensures ring { result.ring.cells.now ≡ take (ring_len self.now) cells.now }
    {
        Sites {
            bench: &self.bench,
            ring: Ring {
                q: self.q(),
                cells: &cells[..self.len],
            },
        }
    }
}
