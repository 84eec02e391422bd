// The sizes of labels, and the tests that rules and densities are held to before they have one.
ghost use Rattle.std.specs.Prelude.{◌≡◌, ◌+◌, ◌-◌, ◌^◌, ◌<◌, ◌≤◌, max, Ok, Err, MatchResult};
ghost use Rattle.fault.specs.Answers.{plainly, and_then};
ghost use Rattle.fault.specs.Refusals.{refusal};
ghost use Rattle.bench.specs.Verdicts.{fitting, bench_checked, pair_checked};

use crate::state::BenchParts;
use crate::subword::Subword;
use automaton::{Density, Rule, WordSet};
use charge::Charge;
use fault::limits::word_count;
use fault::{Fault, Stop};

// The sizes of the label of a rule under a density: its words, the rule's window and reach, and the density's width;
// the part of a word that the density weighs before the step; and how many words there are of a window, and of the next
// letters but one. A label keeps sizes of its own, since its laws are for every `Kind` of its charges, and the tests
// for one.
#[derive(Clone, Copy)]
pub struct RuleSizes {
    pub(crate) words: WordSet,
    pub(crate) n: usize,
    pub(crate) l: usize,
    pub(crate) k: usize,
    pub(crate) weighed: Subword,
    pub(crate) windows: usize,
    pub(crate) kept: usize,
    ghost reach: { l < n },
    ghost some: { 1 ≤ k },
    ghost whole: { words.m ≡ n + k - 1 },
    ghost divides: { (1 ≤ windows) × (1 ≤ kept) },
    ghost counts: { (windows ≡ words.q ^ n) × (kept ≡ words.q ^ (k - 1)) },
    ghost middle: { (weighed.after ≡ words.q ^ (n - 1 - l)) × (weighed.count ≡ words.q ^ k) },
}

// The sizes of the label of two densities: its words, the two widths, and the parts of a word that the two weigh.
#[derive(Clone, Copy)]
pub struct TwoSizes {
    pub(crate) words: WordSet,
    pub(crate) first: usize,
    pub(crate) second: usize,
    pub(crate) first_prefix: Subword,
    pub(crate) second_prefix: Subword,
    ghost larger: { words.m ≡ max first second },
    ghost prefixes: { (first_prefix.after ≡ words.q ^ (words.m - first))
        × (first_prefix.count ≡ words.q ^ first)
        × (second_prefix.after ≡ words.q ^ (words.m - second))
        × (second_prefix.count ≡ words.q ^ second) },
}

// How many words of m letters two parts of these alphabets have. The bounds on q are those of the first part.
fn common_words(q: usize, other: usize, m: usize) -> Result<usize, Fault>
    requires { (2 ≤ q) × (q ≤ 8) }
    ensures { plainly result ≡ and_then (fitting q other m) (λ _. Ok (q ^ m)) }
{
    Stop::AlphabetsDiffer.unless(q == other)?;
    word_count(q as u64, m as u64).ok_or(Stop::TooManyWords.at(0))
}

impl RuleSizes {
    ghost use Rattle.bench.specs.Benches.{bench_of};
    ghost use Rattle.bench.specs.KeptSizes.{SizesOf};

    // The sizes of the label of a rule under a density, where they make a bench.
    pub(crate) fn of<C: Charge, R: Rule, D: Density<C>>(
        parts: &BenchParts<R, D>,
    ) -> Result<RuleSizes, Fault>
        ensures { let b = bench_of C.kind (R.meaning parts.now.rule)
            (D.weights C.kind parts.now.density) in
            MatchResult result
            (λ s. (bench_checked b ≡ Ok tt) × SizesOf s b.rule b.density)
            (λ f. bench_checked b ≡ Err (refusal f)) }
    {
        let q = parts.rule.q();
        let n = parts.rule.n();
        let k = parts.density.k();
        let m = n + k - 1;
        let count = common_words(q, parts.density.q(), m)?;
        let words = WordSet { q, m, count };
        let l = parts.rule.l();
        Ok(RuleSizes {
            words,
            n,
            l,
            k,
            weighed: Subword::of(words, k, n - 1 - l),
            windows: q.pow(n as u32),
            kept: q.pow((k - 1) as u32),
        })
    }
}

impl TwoSizes {
    ghost use Rattle.bench.specs.KeptSizes.{TwoSizesOf};

    // The sizes of the label of two densities, where they can be compared.
    pub(crate) fn of<C: Charge, D: Density<C>, E: Density<C>>(
        first: &D,
        second: &E,
    ) -> Result<TwoSizes, Fault>
        ensures { let d = D.weights C.kind first.now in
            let e = E.weights C.kind second.now in
            MatchResult result
            (λ s. (pair_checked d e ≡ Ok tt) × TwoSizesOf s d e)
            (λ f. pair_checked d e ≡ Err (refusal f)) }
    {
        let q = first.q();
        let m = first.k().max(second.k());
        let count = common_words(q, second.q(), m)?;
        let words = WordSet { q, m, count };
        let first = first.k();
        let second = second.k();
        Ok(TwoSizes {
            words,
            first,
            second,
            first_prefix: Subword::of(words, first, m - first),
            second_prefix: Subword::of(words, second, m - second),
        })
    }
}
