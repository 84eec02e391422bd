// Labels: a charge for each word of the cells that one step can read.
ghost use Rattle.std.specs.Prelude.{◌≡◌, slice_index_or};
ghost use Rattle.charge.specs.Groups.{Kind};
ghost use Rattle.criterion.specs.Labelled.{LabelList, Labelled, label_weights, labelled_weighed};

use automaton::Density;
use charge::Charge;

/// A label: a charge for each word of m letters below q, where q is 2 to 8, m is 1 to 12 and q^m is at most 4,096.
///
/// A word is given by its code, its value in base q with the first letter as the highest digit. An implementer says by
/// the ghost member `labels` what the label is, and answers it by `q`, `m` and `label`.
///
/// A label is no `Density`, though the members of both are alike, so that neither can be handed over for the other.
pub trait Label<C: Charge> {
    /// The alphabet size q, the number m of letters and what the charges mean, word by word in the order of the codes.
    ghost labels: { (K : Kind C) → Self → LabelList K.group.Carrier };

    /// The sizes are in range, the words are few, and there is a charge for each.
    ghost lawful: { (K : Kind C) (d : Self) → Labelled (labels K d) };

    /// The alphabet size q.
    fn q(&self) -> usize
        ensures { result ≡ (labels C.kind self.now).q };

    /// How many letters a word has: m.
    fn m(&self) -> usize
        ensures { result ≡ (labels C.kind self.now).m };

    /// The charge of the word of this code, and zero from code q^m on.
    fn label(&self, code: usize) -> C
        ensures { C.kind.means result
            ≡ slice_index_or (labels C.kind self.now).charges code C.kind.group.zero };
}

// A label as a density, so that its sum over the windows of a ring is a total.
#[derive(Drop)]
pub(crate) struct LabelDensity<'a, L> {
    pub label: &'a L,
}

impl<C: Charge, L: Label<C>> Density<C> for LabelDensity<'_, L> {
    ghost weights = { λ K d. label_weights (L.labels K d.label.now) };

    ghost lawful = { λ K d. labelled_weighed (L.labels K d.label.now) (L.lawful K d.label.now) };

    fn q(&self) -> usize {
        self.label.q()
    }

    fn k(&self) -> usize {
        self.label.m()
    }

    fn charge(&self, code: usize) -> C {
        self.label.label(code)
    }
}
