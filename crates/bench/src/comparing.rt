// Two densities, compared by their totals.
ghost use Rattle.std.specs.Prelude.{◌≡◌, length, Ok};
ghost use Rattle.automaton.specs.Meanings.{total};
ghost use Rattle.bench.specs.Answers.{compare_said};
ghost use Rattle.bench.specs.Labels.{two_label_list};
ghost use Rattle.bench.specs.Promises.{SearchesWords, Compares};
ghost use Rattle.bench.specs.Verdicts.{ShownRing, broken, differ, lent, compare_found};

use crate::sizes::TwoSizes;
use crate::state::{Break, Comparison};
use crate::two_label::TwoLabel;
use automaton::{Density, total};
use charge::Charge;
use criterion::{Failure, examine};
use fault::Fault;

// The first word that fails under the label of two densities, on lent strips.
fn compare_words<C: Charge, D: Density<C>, E: Density<C>>(
    first: &D,
    second: &E,
    crossings: &mut [C],
    ring: &mut [u8],
) -> Result<Option<Failure>, Fault>
    ensures { let d = D.weights C.kind first.now in
        let e = E.weights C.kind second.now in
        let found = compare_found C.kind d e (length crossings.old) (length ring.old) in
        SearchesWords C.kind found (two_label_list C.kind.group d e)
        (lent crossings.old ring.old) result (lent crossings.new ring.new) }
{
    let sizes = TwoSizes::of(first, second)?;
    let label = TwoLabel {
        first,
        second,
        sizes,
    };
    examine(&label, crossings, ring)
}

// The difference by a failing word and the ring that shows it, with its totals under the two densities.
fn differ_on<C: Charge, D: Density<C>, E: Density<C>>(
    first: &D,
    second: &E,
    word: usize,
    ring: &[u8],
) -> Result<Comparison<C>, Fault>
    requires shown { ShownRing (D.weights C.kind first.now).q ring.now }
    requires alike { (D.weights C.kind first.now).q ≡ (E.weights C.kind second.now).q }
    ensures { let d = D.weights C.kind first.now in
        let e = E.weights C.kind second.now in
        compare_said C.kind result
        ≡ Ok (differ (broken (total C.kind.group d) (total C.kind.group e) (word, ring.now))) }
{
    Ok(Comparison::Differ(Break {
        word,
        len: ring.len(),
        first: total(first, ring)?,
        second: total(second, ring)?,
    }))
}

/// Whether two densities agree on the total of every ring of any length.
///
/// With m as the larger of the two widths, the crossings of the words of m - 1 letters go to the front of `crossings`,
/// in the order of the codes. Where the densities differ, a ring that has two totals is written to the front of `ring`.
///
/// Refused, with nothing written and always at place 0: by `Stop::AlphabetsDiffer`; by `Stop::TooManyWords`, where q^m
/// is above 4,096; by `Stop::ShortStrip`, where `crossings` has fewer than q^(m - 1) charges or `ring` has fewer than
/// 2 m - 1 cells.
///
/// ```rust
/// if let Comparison::Differ(found) = compare(&first, &second, &mut crossings, &mut ring)? {
///     // the total of `ring[..found.len]` is `found.first` under one density and `found.second` under the other
/// }
/// ```
pub fn compare<C: Charge, D: Density<C>, E: Density<C>>(
    first: &D,
    second: &E,
    crossings: &mut [C],
    ring: &mut [u8],
) -> Result<Comparison<C>, Fault>
    ensures { Compares C.kind (D.weights C.kind first.now) (E.weights C.kind second.now)
        (lent crossings.old ring.old) result (lent crossings.new ring.new) }
{
    let Some(Failure { word, len }) = compare_words(first, second, crossings, ring)? else {
        return Ok(Comparison::Agree);
    };
    differ_on(first, second, word, &ring[..len])
}
