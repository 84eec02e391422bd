// The search for the first word that fails, over lent strips.
ghost use Rattle.std.specs.Prelude.{◌≡◌, ◌+◌, ◌-◌, ◌*◌, ◌/◌, ◌%◌, ◌^◌, ◌<◌, ◌≤◌, ◌↔◌, map, length, IsTrue, slice_index_or};
ghost use Rattle.fault.specs.Answers.{plainly, at_front};
ghost use Rattle.automaton.specs.Words.{word};
ghost use Rattle.criterion.specs.Answers.{failure_seen, with_length, examined, crossings_written, ring_written};
ghost use Rattle.criterion.specs.Search.{padding, failing, with_room};
ghost use Rattle.criterion.specs.Search.{crossings as crossings_of};
ghost use Rattle.criterion.specs.Search.{fails as fails_at};
ghost use Rattle.criterion.specs.ChargeStrips.{FrontMeans};
ghost use Rattle.criterion.specs.Laws.{LabelLaw};

use crate::crossings::{fill_crossings, head_count};
use crate::label::Label;
use crate::shown::write_shown;
use charge::{Charge, difference};
use fault::{Fault, Stop};

/// A word that fails, and the length of the ring that shows it.
#[derive(Clone, Copy, PartialEq, Eq, Debug)]
pub struct Failure {
    /// The code of the word: its value in base q, the first of its m letters as the highest digit.
    pub word: usize,
    /// How many cells the ring has: 2 m - 1, or 2 m - 2 where the labels of the longer ring sum to zero.
    pub len: usize,
}

// The code of the word with the first letters of code `head` and the letter `last`. The bounds stand here, since a
// label's methods answer plain numbers.
fn code_of(q: usize, heads: usize, head: usize, last: usize) -> usize
    requires small { (q ≤ 8) × (heads ≤ 4096) }
    requires within { (head < heads) × (last < q) }
    ensures is { result ≡ head * q + last }
    ensures below { result < heads * q }
    ensures prefix { result / q ≡ head }
{
    head * q + last
}

// Whether the label of the word of this code is a charge.
fn labelled<C: Charge, L: Label<C>>(label: &L, code: usize, charge: C) -> bool
    ensures { let d = L.labels C.kind label.now in
        IsTrue result
        ↔ (slice_index_or d.charges code C.kind.group.zero ≡ C.kind.means charge) }
{
    label.label(code).same(charge)
}

// Whether the word of this code fails, `head` being the code of its first letters.
// No struct holds a label with its crossings: a ghost field could say only truncated what two clauses say plainly.
fn fails<C: Charge, L: Label<C>>(label: &L, crossings: &[C], head: usize, code: usize) -> bool
    requires filled { map C.kind.means crossings.now
        ≡ crossings_of C.kind padding (L.labels C.kind label.now) }
    requires prefix { (code / (L.labels C.kind label.now).q ≡ head)
        × (head < length crossings.now) }
    ensures { let d = L.labels C.kind label.now in
        result ≡ fails_at C.kind padding d (word d.q d.m code) }
{
    let crosses = difference(crossings[head], crossings[code % crossings.len()]);
    !labelled(label, code, crosses)
}

// The smallest code of a word that fails, by the crossings. Two loops that are left at once: a chain over both ranges
// would ask the label inside closures.
fn first_failing<C: Charge, L: Label<C>>(label: &L, crossings: &[C]) -> Option<usize>
    requires { map C.kind.means crossings.now
        ≡ crossings_of C.kind padding (L.labels C.kind label.now) }
    ensures { result ≡ failing C.kind padding (L.labels C.kind label.now) }
{
    let q = label.q();
    let heads = crossings.len();
    'search: {
        for head in 0..heads {
            for last in 0..q {
                let code = code_of(q, heads, head, last);
                if fails(label, crossings, head, code) {
                    break 'search Some(code);
                }
            }
        }
        None
    }
}

// Whether the strips for the crossings and for a ring are long enough.
fn check_room<C: Charge, L: Label<C>>(
    label: &L,
    crossing_room: usize,
    ring_room: usize,
) -> Result<(), Fault>
    ensures { let d = L.labels C.kind label.now in
        plainly result ≡ with_room C.kind padding d crossing_room ring_room tt }
{
    Stop::ShortStrip.unless(head_count(label) <= crossing_room && 2 * label.m() - 1 <= ring_room)
}

/// Whether a word fails under a label: its charge is not the crossing of its first m - 1 letters less that of its last.
///
/// The crossings of all words of m - 1 letters go to the front of `crossings`, in the order of the codes. If a word
/// fails, the one with the smallest code is answered, and a ring on whose windows the labels do not sum to zero is
/// written to the front of `ring`. Where none is answered, the labels sum to zero on the rings of every length.
///
/// Refused, with nothing written, by `Stop::ShortStrip` at place 0: where `crossings` has fewer than q^(m - 1) charges
/// or `ring` fewer than 2 m - 1 cells, of which `MOST_SHOWN` are always enough.
///
/// ```rust
/// if let Some(Failure { word, len }) = examine(&label, &mut crossings, &mut ring)? {
///     // the word of code `word` fails, and `ring[..len]` shows it
/// }
/// ```
pub fn examine<C: Charge, L: Label<C>>(
    label: &L,
    crossings: &mut [C],
    ring: &mut [u8],
) -> Result<Option<Failure>, Fault>
    ensures answer { let d = L.labels C.kind label.now in
        let found = examined C.kind padding d (length crossings.old) (length ring.old) in
        failure_seen result ≡ with_length found }
    ensures crossings { let d = L.labels C.kind label.now in
        let all = crossings_written C.kind padding d (length crossings.old) (length ring.old) in
        FrontMeans C.kind all crossings.old crossings.new }
    ensures ring { let d = L.labels C.kind label.now in
        let found = examined C.kind padding d (length crossings.old) (length ring.old) in
        ring.new ≡ at_front (ring_written found) ring.old }
    ensures law { LabelLaw C.kind padding (L.labels C.kind label.now) }
{
    check_room(label, crossings.len(), ring.len())?;
    let crossings = &mut crossings[..head_count(label)];
    fill_crossings(label, crossings);
    let Some(word) = first_failing(label, crossings) else {
        return Ok(None);
    };
    let len = write_shown(label, word, ring)?;
    Ok(Some(Failure { word, len }))
}
