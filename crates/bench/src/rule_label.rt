// The label of a rule under a density.
ghost use Rattle.std.specs.Prelude.{◌≡◌, ◌+◌, ◌-◌, ◌/◌, ◌%◌, ◌^◌, ◌<◌, ◌≤◌, length, slice_index, MatchOption};
ghost use Rattle.bench.specs.KeptSizes.{next_word, KnowsNext};

use crate::sizes::RuleSizes;
use crate::state::BenchParts;
use automaton::{Density, Rule};
use charge::{Charge, difference};
use criterion::Label;

/// The label of a rule under a density, on words of n + k - 1 letters: the density on the k next letters less the
/// density on the k letters that stood there.
// It finds the next letters of a word in a table of those of the first words, and asks the rule for those of others.
#[derive(Drop)]
pub struct RuleLabel<'a, R: Rule, D> {
    pub(crate) parts: &'a BenchParts<R, D>,
    pub(crate) sizes: RuleSizes,
    pub(crate) nexts: &'a [u16],
    ghost words: { length nexts.now ≤ sizes.words.count },
    ghost known: { KnowsNext sizes (R.meaning parts.now.rule) (length nexts.now) nexts.now },
}

impl<C: Charge, R: Rule, D: Density<C>> Label<C> for RuleLabel<'_, R, D> {
    ghost use Rattle.bench.specs.Labelling.{rule_label_meant, rule_label-labelled};

    ghost labels = { λ K t. rule_label_meant D.Density K t };

    ghost lawful = { λ K t. rule_label-labelled D.Density K t };

    fn q(&self) -> usize {
        self.sizes.words.q
    }

    fn m(&self) -> usize {
        self.sizes.words.m
    }

    fn label(&self, code: usize) -> C {
        let Some(next) = self.next_word(code) else {
            return C::zero();
        };
        let later = self.parts.density.charge(next);
        let now = self.parts.density.charge(self.sizes.weighed.code(code));
        difference(later, now)
    }
}

impl<R: Rule, D> RuleLabel<'_, R, D> {
    // The code of the next letters of the word of a code, if there is one. One test is enough where they are known.
    fn next_word(&self, code: usize) -> Option<usize>
        ensures { let sizes = self.now.sizes in
            let next_of = next_word sizes (R.meaning self.now.parts.now.rule) in
            MatchOption result (sizes.words.count ≤ code)
            (λ next. (code < sizes.words.count) × (next ≡ next_of code)) }
    {
        match self.nexts.get(code) {
            Some(next) => Some(*next as usize),
            None if code < self.sizes.words.count => Some(self.parts.next_code(self.sizes, code)),
            None => None,
        }
    }
}
