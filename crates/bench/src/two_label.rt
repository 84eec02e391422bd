// The label of two densities.
ghost use Rattle.std.specs.Prelude.{◌≡◌, ◌-◌, ◌/◌, ◌%◌, ◌^◌, ◌≤◌, refl, slice_index_or};

use crate::sizes::TwoSizes;
use automaton::Density;
use charge::{Charge, difference};
use criterion::Label;

/// The label of two densities, on words of as many letters as the larger width has: the first density less the second,
/// each on the leading letters of a word.
#[derive(Drop)]
pub struct TwoLabel<'a, 'b, D, E> {
    pub(crate) first: &'a D,
    pub(crate) second: &'b E,
    pub(crate) sizes: TwoSizes,
}

impl<C: Charge, D: Density<C>, E: Density<C>> Label<C> for TwoLabel<'_, '_, D, E> {
    ghost use Rattle.bench.specs.Labelling.{two_label_meant, two_label-labelled};

    ghost labels = { λ K t. two_label_meant D.Density E.Density K t };

    ghost lawful = { λ K t. two_label-labelled D.Density E.Density K t };

    fn q(&self) -> usize {
        self.sizes.words.q
    }

    fn m(&self) -> usize {
        self.sizes.words.m
    }

    fn label(&self, code: usize) -> C {
        if code >= self.sizes.words.count {
            return C::zero();
        }
        let weighed = self.first.charge(self.sizes.first_prefix.code(code));
        let less = self.second.charge(self.sizes.second_prefix.code(code));
        difference(weighed, less)
    }
}
