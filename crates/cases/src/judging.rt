// Benches judged and densities compared.
use crate::numbers;
use automaton::{Density, PatternDensity, Rule, SumRule, TableDensity, TableRule};
use bench::{Break, Comparison, Draft, compare};
use charge::{Channels, Charge, Pitch, Voices};
use fault::Fault;

// The break, if there is one, of a rule under a density.
fn judged<C: Charge, R: Rule + Drop, D: Density<C> + Drop>(
    rule: R,
    density: D,
    crossings: &mut [C],
    ring: &mut [u8],
) -> Result<Option<Break<C>>, Fault> {
    Ok(Draft::new(rule, density)?.judge(crossings, ring)?.found())
}

// The same for a rule and a density over two letters, by the rule's window and reach and by their tables.
fn judged_tables<C: Charge>(
    (n, l): (u64, u64),
    letters: &[u8],
    entries: &[C],
    crossings: &mut [C],
    ring: &mut [u8],
) -> Result<Option<Break<C>>, Fault> {
    let mut rule = TableRule::zero();
    rule.fill(2, n, l, letters)?;
    let mut density = TableDensity::zero();
    density.fill(2, 1, entries)?;
    judged(rule, density, crossings, ring)
}

// The window and the reach of the elementary rules.
const ELEMENTARY: (u64, u64) = (3, 1);

const RULE_184: [u8; 8] = [0, 0, 0, 1, 1, 1, 0, 1];

// A voice for each 1.
const ONES: [Voices; 2] = [Voices { count: 0 }, Voices { count: 1 }];

// What is found where a word breaks the total.
fn broken<C: Charge>(
    word: usize,
    len: usize,
    first: C,
    second: C,
) -> Result<Option<Break<C>>, Fault> {
    Ok(Some(Break {
        word,
        len,
        first,
        second,
    }))
}

fn voices(count: i64) -> Voices {
    Voices { count }
}

#[test]
fn rule_184_holds(rt: HostRuntime) {
    let mut crossings = [voices(77); 4];
    let mut ring = [9u8; 5];
    let found = judged_tables(ELEMENTARY, &RULE_184, &ONES, &mut crossings, &mut ring);
    assert_eq!(rt; found, Ok(None));
    assert_eq!(rt; crossings, [voices(0), voices(0), voices(1), voices(0)]);
    assert_eq!(rt; ring, [9, 9, 9, 9, 9]);
}

#[test]
fn rule_90_breaks(rt: HostRuntime) {
    let mut crossings = [voices(77); 4];
    let mut ring = [9u8; 6];
    let found = judged_tables(
        ELEMENTARY,
        &[0, 1, 0, 1, 1, 0, 1, 0],
        &ONES,
        &mut crossings,
        &mut ring,
    );
    assert_eq!(rt; found, broken(0b100, 5, voices(1), voices(2)));
    assert_eq!(rt; ring, [1, 0, 0, 0, 0, 9]);
}

fn channels(bits: u16) -> Channels {
    Channels { bits }
}

#[test]
fn rule_150_holds_in_channels(rt: HostRuntime) {
    let mut crossings = [channels(77); 4];
    let mut ring = [9u8; 5];
    let found = judged_tables(
        ELEMENTARY,
        &[0, 1, 1, 0, 1, 0, 0, 1],
        &[channels(0), channels(1)],
        &mut crossings,
        &mut ring,
    );
    assert_eq!(rt; found, Ok(None));
    assert_eq!(rt;
        crossings,
        [channels(0), channels(1), channels(1), channels(0)]
    );
}

fn class(number: u8) -> Pitch {
    Pitch::new(number).unwrap_or(Pitch::zero())
}

// Ring A gains 12, which is 0, so ring B is shown.
#[test]
fn pitch_breaks_on_ring_b(rt: HostRuntime) {
    let mut crossings = [class(7); 2];
    let mut ring = [9u8; 3];
    let found = judged_tables(
        (2, 0),
        &[1, 1, 1, 1],
        &[class(0), class(4)],
        &mut crossings,
        &mut ring,
    );
    assert_eq!(rt; found, broken(0, 2, class(0), class(8)));
    assert_eq!(rt; ring, [0, 0, 9]);
}

#[test]
fn one_letter_breaks(rt: HostRuntime) {
    let mut crossings = [voices(77); 1];
    let mut ring = [9u8; 1];
    let found = judged_tables((1, 0), &[1, 0], &ONES, &mut crossings, &mut ring);
    assert_eq!(rt; found, broken(0, 1, voices(0), voices(1)));
    assert_eq!(rt; ring, [0]);
    assert_eq!(rt; crossings, [voices(0)]);
}

// The comparison of the patterns of two letters, each worth one voice.
fn compared(
    first: [u8; 2],
    second: [u8; 2],
    crossings: &mut [Voices],
    ring: &mut [u8],
) -> Result<Comparison<Voices>, Fault> {
    let mut one = PatternDensity::zero();
    one.fill(2, 2, &first, voices(1))?;
    let mut other = PatternDensity::zero();
    other.fill(2, 2, &second, voices(1))?;
    compare(&one, &other, crossings, ring)
}

#[test]
fn patterns_10_and_01_agree(rt: HostRuntime) {
    let mut crossings = [voices(77); 2];
    let mut ring = [9u8; 3];
    assert_eq!(rt;
        compared([1, 0], [0, 1], &mut crossings, &mut ring),
        Ok(Comparison::Agree)
    );
    assert_eq!(rt; crossings, [voices(0), voices(1)]);
    assert_eq!(rt; ring, [9, 9, 9]);
}

// The word that fails and the length of the ring, without the totals.
fn place(found: Break<Voices>) -> (usize, usize) {
    (found.word, found.len)
}

#[test]
fn patterns_10_and_11_differ(rt: HostRuntime) {
    let mut crossings = [voices(77); 2];
    let mut ring = [9u8; 3];
    let found = compared([1, 0], [1, 1], &mut crossings, &mut ring);
    assert_eq!(rt;
        found.map(|found| found.found().map(place)),
        Ok(Some((0b10, 3)))
    );
    assert_eq!(rt; ring, [1, 0, 0]);
}

// Rules by sums, so that the tables stay short: the break of one, if there is one, under a density of width k that
// weighs nothing; a refusal by its numbers.
fn judged_sums(
    q: u64,
    n: u64,
    k: u64,
    crossings: &mut [Voices],
    ring: &mut [u8],
) -> Result<Option<Break<Voices>>, Fault> {
    let letters = [0u8; 30];
    let word = [0u8; 12];
    let mut rule = SumRule::zero();
    rule.fill(q, n, 0, &letters)?;
    let mut density = PatternDensity::zero();
    density.fill(q, k, &word, voices(0))?;
    judged(rule, density, crossings, ring)
}

#[test]
fn limits_of_words(rt: HostRuntime) {
    let mut crossings = [voices(77); 2048];
    let mut ring = [9u8; 23];
    assert_eq!(rt; judged_sums(8, 4, 1, &mut crossings, &mut ring), Ok(None));
    assert_eq!(rt;
        judged_sums(8, 4, 2, &mut crossings, &mut ring).map_err(numbers),
        Err((9, 0))
    );
    assert_eq!(rt; judged_sums(2, 12, 1, &mut crossings, &mut ring), Ok(None));
    assert_eq!(rt;
        judged_sums(2, 13, 1, &mut crossings, &mut ring).map_err(numbers),
        Err((5, 0))
    );
}

#[test]
fn short_crossing_strip(rt: HostRuntime) {
    let mut crossings = [voices(77); 3];
    let mut ring = [9u8; 5];
    let found = judged_tables(ELEMENTARY, &RULE_184, &ONES, &mut crossings, &mut ring);
    assert_eq!(rt; found.map_err(numbers), Err((12, 0)));
    assert_eq!(rt; crossings, [voices(77), voices(77), voices(77)]);
}

#[test]
fn short_ring_strip(rt: HostRuntime) {
    let mut crossings = [voices(77); 4];
    let mut ring = [9u8; 4];
    let found = judged_tables(ELEMENTARY, &RULE_184, &ONES, &mut crossings, &mut ring);
    assert_eq!(rt; found.map_err(numbers), Err((12, 0)));
    assert_eq!(rt; crossings, [voices(77); 4]);
}
