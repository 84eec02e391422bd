// What a bench that holds is asked by a player.
ghost use Rattle.std.specs.Prelude.{◌≡◌, ◌+◌, ◌-◌, ◌≤◌, length};
ghost use Rattle.bench.specs.KeptSizes.{KnowsNext};

use crate::next_words::NextWords;
use crate::rule_label::RuleLabel;
use crate::state::Holding;
use automaton::{Density, Ring, Rule, Span, WordSet};
use charge::Charge;
use criterion::crossing;

impl<C: Charge, R: Rule, D: Density<C>> Holding<C, R, D> {
    ghost use Rattle.bench.specs.States.{rule_of, density_of, holding_of};

    /// The rule of the bench.
    pub fn rule(&self) -> &R
        ensures { result.now ≡ rule_of self.now }
    {
        &self.parts.rule
    }

    /// The density of the bench.
    pub fn density(&self) -> &D
        ensures { result.now ≡ density_of self.now }
    {
        &self.parts.density
    }

    // The m - 1 cells that a crossing is taken from.
    fn crossing_span(&self) -> Span
        ensures { (result.before ≡ self.now.sizes.l)
            × (result.width ≡ self.now.sizes.n + self.now.sizes.k - 2) }
    {
        Span {
            before: self.sizes.l,
            width: self.sizes.words.m - 1,
        }
    }

    /// What crosses into the sites of rings in a step.
    ///
    /// `sites` is how many sites will be asked for, and decides only how fast they are answered: where so many ask for
    /// more labels than there are words, the next letters of all words are found first, in `room`. What is left in it
    /// is open.
    pub fn crossings<'a>(
        &'a self,
        sites: usize,
        room: &'a mut NextWords,
    ) -> SiteCrossings<'a, C, R, D>
        ensures { holding_of result ≡ self.now }
    {
        let WordSet { m, count, .. } = self.sizes.words;
        if sites < count / m {
            return SiteCrossings {
                bench: self,
                nexts: &[],
            };
        }
        SiteCrossings {
            bench: self,
            nexts: self.parts.next_words(self.sizes, room),
        }
    }
}

/// What crosses into the sites of rings in a step, on a bench that holds.
// The next letters of the first words are known.
#[derive(Drop)]
pub struct SiteCrossings<'a, C: Charge, R: Rule, D: Density<C>> {
    bench: &'a Holding<C, R, D>,
    nexts: &'a [u16],
    ghost words: { length nexts.now ≤ bench.now.sizes.words.count },
    ghost known: { KnowsNext bench.now.sizes (R.meaning bench.now.parts.rule)
        (length nexts.now) nexts.now },
}

impl<C: Charge, R: Rule, D: Density<C>> SiteCrossings<'_, C, R, D> {
    ghost use Rattle.bench.specs.Benches.{crossing_into};
    ghost use Rattle.bench.specs.States.{sites_bench};

    /// What crosses into site i of a ring: the crossing of the m - 1 = n + k - 2 cells from l cells before cell i on.
    ///
    /// Sites are counted from 0 and go round, so that a ring of L cells has one site i and i + L.
    pub fn at(&self, ring: Ring<'_>, i: usize) -> C
        ensures { C.kind.means result
            ≡ crossing_into (sites_bench self.now) ring.entry.q ring.entry.cells.now i }
    {
        let label = RuleLabel {
            parts: &self.bench.parts,
            sizes: self.bench.sizes,
            nexts: self.nexts,
        };
        crossing(&label, ring.span_code(self.bench.crossing_span(), i))
    }
}
