// The states of a bench, moved from call to call: drafted, and after its one verdict holding or breaking.
ghost use Rattle.std.specs.Prelude.{◌≡◌};
ghost use Rattle.bench.specs.Laws.{NoneChanges, SomeChanges};
ghost use Rattle.bench.specs.KeptSizes.{SizesOf};

use crate::sizes::RuleSizes;
use automaton::{Density, Rule};
use charge::Charge;
use fault::Fault;
use std::marker::PhantomData;

/// A rule and a density.
#[derive(Drop)]
pub struct BenchParts<R, D> {
    /// The rule.
    pub rule: R,
    /// The density.
    pub density: D,
}

/// A bench that has not been judged: a rule and a density over one alphabet, with at most 4,096 words of the
/// n + k - 1 letters that a label takes.
#[derive(Drop)]
pub struct Draft<C: Charge, R: Rule, D: Density<C>> {
    pub(crate) parts: BenchParts<R, D>,
    pub(crate) sizes: RuleSizes,
    pub(crate) kind: PhantomData<C>,
    ghost sized: { SizesOf sizes (R.meaning parts.rule) (D.weights C.kind parts.density) },
}

/// A bench on which no ring of any length changes its total in a step.
///
/// Only `Draft::judge` makes one, so whoever is handed one need not judge it again.
#[derive(Drop)]
pub struct Holding<C: Charge, R: Rule, D: Density<C>> {
    pub(crate) parts: BenchParts<R, D>,
    pub(crate) sizes: RuleSizes,
    pub(crate) kind: PhantomData<C>,
    ghost sized: { SizesOf sizes (R.meaning parts.rule) (D.weights C.kind parts.density) },
    /// No ring changes its total in a step.
    pub ghost holds: { NoneChanges C.kind.group (R.meaning parts.rule)
        (D.weights C.kind parts.density) },
}

/// A bench on which some ring of at most 2 (n + k) - 3 cells changes its total in a step.
///
/// Only `Draft::judge` makes one.
#[derive(Drop)]
pub struct Breaking<C: Charge, R: Rule, D: Density<C>> {
    pub(crate) parts: BenchParts<R, D>,
    pub(crate) kind: PhantomData<C>,
    /// Some ring changes its total in a step.
    pub ghost breaks: { SomeChanges C.kind.group (R.meaning parts.rule)
        (D.weights C.kind parts.density) },
}

/// A failing word, and two totals of the ring that shows it. The ring is at the front of the strip that was lent.
#[derive(Clone, Copy, PartialEq, Eq, Debug)]
pub struct Break<C> {
    /// The code of the word: its value in base q, the first letter as the highest digit.
    pub word: usize,
    /// How many cells the ring has.
    pub len: usize,
    /// The total of the ring before the step, or under the first density.
    pub first: C,
    /// The total of the ring after the step, or under the second density.
    pub second: C,
}

/// A bench in its next state: H where it holds, and B where it breaks.
///
/// An enum of its own, since neither case is an error, as one would be in a `Result`.
#[derive(Drop)]
pub enum Verdict<C, H, B> {
    /// No ring changes its total in a step.
    Holds(H),
    /// Some ring does, and this one shows it.
    Breaks(B, Break<C>),
}

impl<C: Drop, H: Drop, B: Drop> Verdict<C, H, B> {
    ghost use Rattle.bench.specs.Answers.{break_of};

    /// The break, if there is one, without the bench.
    pub fn found(self) -> Option<Break<C>>
        ensures { result ≡ break_of self }
    {
        match self {
            Verdict::Holds(_) => None,
            Verdict::Breaks(_, found) => Some(found),
        }
    }
}

/// What comparing two densities says.
#[derive(Clone, Copy, PartialEq, Eq, Debug)]
pub enum Comparison<C> {
    /// No ring has two totals.
    Agree,
    /// Some ring has, and this one shows it.
    Differ(Break<C>),
}

impl<C: Drop> Comparison<C> {
    ghost use Rattle.bench.specs.Answers.{difference_of};

    /// The difference, if there is one.
    pub fn found(self) -> Option<Break<C>>
        ensures { result ≡ difference_of self }
    {
        match self {
            Comparison::Agree => None,
            Comparison::Differ(found) => Some(found),
        }
    }
}

/// A refusal, with what was handed over as it stood. `?` makes a `Fault` of it, and lets go of the rest.
#[derive(Drop)]
pub struct Refused<S> {
    /// What was handed over, unchanged.
    pub state: S,
    /// Why it was refused, and at which place.
    pub fault: Fault,
}

// What was handed over is let go.
impl<S: Drop> From<Refused<S>> for Fault {
    ghost from_gives = { λ refused fault. fault ≡ refused.fault };

    fn from(refused: Refused<S>) -> Fault {
        refused.fault
    }
}
