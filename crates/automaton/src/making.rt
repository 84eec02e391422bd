// The tests that rules, densities and rings are held to: the lowest stop code that fits is the refusal.
ghost use Rattle.std.specs.Prelude.{◌≡◌, ◌<◌, Bool, Ok, Err, MatchResult, not, nat_lt, position};
ghost use Rattle.std.specs.Option.{option_map_or};
ghost use Rattle.fault.specs.declared.Stop.{Stop};
ghost use Rattle.fault.specs.declared.Stop.TheVariants.{BadLetter, BadEntry};
ghost use Rattle.fault.specs.Answers.{plainly, and_then};
ghost use Rattle.fault.specs.Checks.{tested, each_fits};
ghost use Rattle.fault.specs.Refusals.{refusal, refused_at};
ghost use Rattle.automaton.specs.Making.{rule_tests, density_tests, words_counted, lent_items, taken};

use crate::word_set::WordSet;
use charge::Charge;
use fault::limits::{LEAST_LETTERS, MOST_LETTERS, MOST_WIDTH, MOST_WINDOW};
use fault::{Fault, Stop};

// What items are held to one by one, and the refusal of the first that fails.
pub(crate) trait Test<X> {
    ghost allows: { Self → X → Bool };

    ghost STOP: { Stop };

    const STOP: Stop;

    fn allows(&self, item: X) -> bool
        ensures { result ≡ allows self.now item };
}

// Letters below q.
#[derive(Drop)]
pub(crate) struct Alphabet {
    pub q: usize,
}

impl Test<u8> for Alphabet {
    ghost allows = { λ t a. nat_lt a t.q };

    ghost STOP = { BadLetter };

    const STOP: Stop = Stop::BadLetter;

    fn allows(&self, item: u8) -> bool {
        (item as usize) < self.q
    }
}

// Charges that may be entries of a density.
#[derive(Drop)]
pub(crate) struct Entries;

impl<C: Charge> Test<C> for Entries {
    ghost allows = { λ _ x. C.kind.entry x };

    ghost STOP = { BadEntry };

    const STOP: Stop = Stop::BadEntry;

    fn allows(&self, item: C) -> bool {
        item.is_entry()
    }
}

// The words of a rule's window, which is longer than the reach.
pub(crate) fn check_rule(q: u64, n: u64, l: u64) -> Result<WordSet, Fault>
    ensures { let counting = and_then (tested (rule_tests q n l)) (λ _. words_counted q n) in
        MatchResult result
        (λ w. (counting ≡ Ok w.count) × (w.q ≡ q) × (w.m ≡ n) × (l < n))
        (λ f. counting ≡ Err (refusal f)) }
{
    Stop::BadAlphabet.unless(LEAST_LETTERS <= q && q <= MOST_LETTERS)?;
    Stop::BadWindow.unless(1 <= n && n <= MOST_WINDOW)?;
    Stop::BadReach.unless(l < n)?;
    WordSet::few(q, n)
}

// The words of a density's width.
pub(crate) fn check_density(q: u64, k: u64) -> Result<WordSet, Fault>
    ensures { let counting = and_then (tested (density_tests q k)) (λ _. words_counted q k) in
        MatchResult result
        (λ w. (counting ≡ Ok w.count) × (w.q ≡ q) × (w.m ≡ k))
        (λ f. counting ≡ Err (refusal f)) }
{
    Stop::BadAlphabet.unless(LEAST_LETTERS <= q && q <= MOST_LETTERS)?;
    Stop::BadWidth.unless(1 <= k && k <= MOST_WIDTH)?;
    WordSet::few(q, k)
}

// Each item passes; else the index of the first that does not.
pub(crate) fn check_each<X: Copy, T: Test<X>>(test: &T, items: &[X]) -> Result<(), Fault>
    ensures { plainly result ≡ each_fits (T.allows test.now) T.STOP 0 items.now }
{
    refuse_first(T::STOP, first_failing(test, items))
}

// The index of the first item that does not pass.
fn first_failing<X: Copy, T: Test<X>>(test: &T, items: &[X]) -> Option<usize>
    ensures { result ≡ position (λ x. not (T.allows test.now x)) items.now }
{
    items.iter().position(|item| !test.allows(*item))
}

// The refusal that speaks of a place, if there is one.
fn refuse_first(stop: Stop, place: Option<usize>) -> Result<(), Fault>
    ensures { plainly result ≡ option_map_or (λ i. Err (refused_at stop i)) place (Ok tt) }
{
    place.map_or(Ok(()), |i| Err(stop.at(i)))
}

// The first `need` items of a strip, where there are as many and each passes.
pub(crate) fn take_checked<'a, X: Copy, T: Test<X>>(
    test: &T,
    need: usize,
    strip: &'a [X],
) -> Result<&'a [X], Fault>
    ensures { lent_items result ≡ taken (T.allows test.now) T.STOP need strip.now }
{
    Stop::ShortStrip.unless(need <= strip.len())?;
    let items = &strip[..need];
    check_each(test, items)?;
    Ok(items)
}
