// The bench, and its one verdict.
ghost use Rattle.std.specs.Prelude.{◌≡◌, length, Ok};
ghost use Rattle.automaton.specs.Making.{charged};
ghost use Rattle.bench.specs.Answers.{breaks_mean, verdict_means, draft_said, found_said, broken_said};
ghost use Rattle.bench.specs.Benches.{bench_of, label_of, total_before, total_after};
ghost use Rattle.bench.specs.Laws.{KnownBy};
ghost use Rattle.bench.specs.Promises.{SearchesWords, Judges};
ghost use Rattle.bench.specs.States.{draft_bench, draft_parts, judged_parts, HandsIn, HandsOn};
ghost use Rattle.bench.specs.Verdicts.{ShownRing, bench_checked, broken, lent, judge_found, judge_break, JudgeLeaves, verdict_of};

use crate::next_words::NextWords;
use crate::rule_label::RuleLabel;
use crate::sizes::RuleSizes;
use crate::state::{BenchParts, Break, Breaking, Draft, Holding, Refused, Verdict};
use automaton::{Density, Rule, next_ring, total};
use charge::Charge;
use criterion::{Failure, MOST_SHOWN, examine};
use fault::Fault;
use std::marker::PhantomData;

/// What a draft is once it is judged: a bench that holds, or one that breaks, with the break.
pub type Judged<C, R, D> = Verdict<C, Holding<C, R, D>, Breaking<C, R, D>>;

// The bench in the state that a break, or none, puts it into.
fn verdict_of<C: Charge, R: Rule, D: Density<C>>(
    draft: Draft<C, R, D>,
    found: Option<Break<C>>,
) -> Judged<C, R, D>
    requires { KnownBy (draft_bench draft) found }
    ensures verdict { verdict_means C.kind result ≡ verdict_of (breaks_mean C.kind found) }
    ensures parts { judged_parts result ≡ draft_parts draft }
{
    let Draft { parts, sizes, kind } = draft;
    match found {
        None => Verdict::Holds(Holding { parts, sizes, kind }),
        Some(found) => Verdict::Breaks(Breaking { parts, kind }, found),
    }
}

impl<C: Charge, R: Rule, D: Density<C>> Draft<C, R, D> {
    /// A bench of a rule and a density.
    ///
    /// Refused, with both handed back: by `Stop::AlphabetsDiffer` at place 0, then by `Stop::TooManyWords` at place 0,
    /// where there are more than 4,096 words of n + k - 1 letters.
    pub fn new(rule: R, density: D) -> Result<Draft<C, R, D>, Refused<BenchParts<R, D>>>
        ensures answer { draft_said result
            ≡ bench_checked (bench_of C.kind (R.meaning rule) (D.weights C.kind density)) }
        ensures handed { HandsIn rule density result }
    {
        let parts = BenchParts { rule, density };
        match RuleSizes::of(&parts) {
            Ok(sizes) => Ok(Draft {
                parts,
                sizes,
                kind: PhantomData,
            }),
            Err(fault) => Err(Refused {
                state: parts,
                fault,
            }),
        }
    }

    // The total after one step of a ring that may be shown.
    fn later_total(&self, ring: &[u8]) -> Result<C, Fault>
        requires { ShownRing (draft_bench self.now).rule.q ring.now }
        ensures { charged C.kind result ≡ Ok (total_after (draft_bench self.now) ring.now) }
    {
        let mut strip = [0u8; MOST_SHOWN];
        next_ring(&self.parts.rule, ring, &mut strip)?;
        total(&self.parts.density, &strip[..ring.len()])
    }

    // The break by a failing word and the ring that shows it, with the totals before and after one step.
    fn break_on(&self, word: usize, ring: &[u8]) -> Result<Break<C>, Fault>
        requires { ShownRing (draft_bench self.now).rule.q ring.now }
        ensures { let b = draft_bench self.now in
            broken_said C.kind result
            ≡ Ok (broken (total_before b) (total_after b) (word, ring.now)) }
    {
        Ok(Break {
            word,
            len: ring.len(),
            first: total(&self.parts.density, ring)?,
            second: self.later_total(ring)?,
        })
    }

    // The first word that fails under the label, on lent strips. The next letters of all words are found first, since
    // each word's label is asked for more than once.
    fn judge_words(&self, crossings: &mut [C], ring: &mut [u8]) -> Result<Option<Failure>, Fault>
        ensures { let b = draft_bench self.now in
            let found = judge_found b (length crossings.old) (length ring.old) in
            SearchesWords C.kind found (label_of b)
            (lent crossings.old ring.old) result (lent crossings.new ring.new) }
    {
        let mut room = NextWords::new();
        let label = RuleLabel {
            parts: &self.parts,
            sizes: self.sizes,
            nexts: self.parts.next_words(self.sizes, &mut room),
        };
        examine(&label, crossings, ring)
    }

    // Judges the rule under the density on lent strips.
    fn judge_on(&self, crossings: &mut [C], ring: &mut [u8]) -> Result<Option<Break<C>>, Fault>
        ensures answer { found_said C.kind result
            ≡ judge_break (draft_bench self.now) (length crossings.old) (length ring.old) }
        ensures left { JudgeLeaves (draft_bench self.now)
            (lent crossings.old ring.old) (lent crossings.new ring.new) }
    {
        let Some(Failure { word, len }) = self.judge_words(crossings, ring)? else {
            return Ok(None);
        };
        Ok(Some(self.break_on(word, &ring[..len])?))
    }

    /// Whether some ring of any length changes its total in a step.
    ///
    /// With m = n + k - 1, the crossings of the words of m - 1 letters go to the front of `crossings`, in the order of
    /// the codes. On a break a ring that changes its total is written to the front of `ring`.
    ///
    /// Refused, with nothing written and the draft handed back, by `Stop::ShortStrip` at place 0 alone: where
    /// `crossings` has fewer than q^(m - 1) charges or `ring` fewer than 2 m - 1 cells, whatever the verdict is.
    ///
    /// ```rust
    /// match Draft::new(rule, density)?.judge(&mut crossings, &mut ring)? {
    ///     Verdict::Holds(bench) => {} // no ring changes its total: `bench` may be played
    ///     Verdict::Breaks(_, found) => {} // `ring[..found.len]` goes from `found.first` to `found.second`
    /// }
    /// ```
    pub fn judge(
        self,
        crossings: &mut [C],
        ring: &mut [u8],
    ) -> Result<Judged<C, R, D>, Refused<Draft<C, R, D>>>
        ensures judged { Judges (draft_bench self)
            (lent crossings.old ring.old) result (lent crossings.new ring.new) }
        ensures handed { HandsOn self result }
    {
        match self.judge_on(crossings, ring) {
            Ok(found) => Ok(verdict_of(self, found)),
            Err(fault) => Err(Refused { state: self, fault }),
        }
    }
}
