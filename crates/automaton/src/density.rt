// Densities: what the words on a ring are worth.
ghost use Rattle.std.specs.Prelude.{◌≡◌, slice_index_or};
ghost use Rattle.charge.specs.Groups.{Kind};
ghost use Rattle.automaton.specs.Meanings.{Weights, Weighed};

use charge::Charge;

/// A density: a charge for each word of k letters below q. The member `weights` is q, k and the list of what the
/// charges mean, by code; `lawful` says that q is 2 to 8, that k is 1 to 12, and that there are q^k charges.
/// Questions change nothing and repeat their answers.
pub trait Density<C: Charge> {
    ghost weights: { (K : Kind C) → Self → Weights K.group.Carrier };

    ghost lawful: { (K : Kind C) (d : Self) → Weighed (weights K d) };

    /// The alphabet size q.
    fn q(&self) -> usize
        ensures { result ≡ (weights C.kind self.now).q };

    /// The width k: how many letters a word has.
    fn k(&self) -> usize
        ensures { result ≡ (weights C.kind self.now).k };

    /// The charge of the word of this code, and zero past the last code, which is q^k - 1.
    fn charge(&self, code: usize) -> C
        ensures { C.kind.means result
            ≡ slice_index_or (weights C.kind self.now).charges code C.kind.group.zero };
}
