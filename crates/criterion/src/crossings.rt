// The crossings of all words of m - 1 letters.
ghost use Rattle.std.specs.Prelude.{◌≡◌, ◌-◌, ◌^◌, map, length, ◌==◌, if◌then◌else◌, slice_index_or};
ghost use Rattle.charge.specs.Groups.{minus};
ghost use Rattle.criterion.specs.Search.{padding, crossings};

use crate::label::Label;
use charge::{Charge, difference};

// How many words of m - 1 letters there are.
pub(crate) fn head_count<C: Charge, L: Label<C>>(label: &L) -> usize
    ensures { result ≡ (L.labels C.kind label.now).q ^ ((L.labels C.kind label.now).m - 1) }
{
    label.q().pow((label.m() - 1) as u32)
}

// The sum of the labels of a word's prefixes, of which the crossing is the opposite: padded with zeros, these have the
// codes of v without its last letters. Of the code of a word of m - 1 letters nothing is left then.
#[inline(always)]
fn prefixes_sum<C: Charge, L: Label<C>>(label: &L, v: usize) -> (C, usize)
    ensures { let all = crossings C.kind padding (L.labels C.kind label.now) in
        let opposite = C.kind.group.neg (C.kind.means result.0) in
        (if result.1 == 0 then opposite else C.kind.group.zero)
        ≡ slice_index_or all v C.kind.group.zero }
{
    let q = label.q();
    let mut prefix = v;
    let mut sum = C::zero();
    for _ in 0..label.m() - 1 {
        sum = sum.plus(label.label(prefix));
        prefix /= q;
    }
    (sum, prefix)
}

// The opposite of a sum if nothing is left, and otherwise zero.
#[inline(always)]
fn opposite_of<C: Charge>(sum: C, left: usize) -> C
    ensures { let opposite = C.kind.group.neg (C.kind.means sum) in
        C.kind.means result ≡ (if left == 0 then opposite else C.kind.group.zero) }
{
    if left == 0 { sum.opposite() } else { C::zero() }
}

/// The crossing J of the word of m - 1 letters with this code, and zero from code q^(m - 1) on.
///
/// It is found from the label each time, which asks for m - 1 charges; `examine` fills a table of all crossings.
// Inlined, like the sum, since it is asked for site by site, and what the label keeps is then loaded once.
#[inline(always)]
pub fn crossing<C: Charge, L: Label<C>>(label: &L, code: usize) -> C
    ensures { let all = crossings C.kind padding (L.labels C.kind label.now) in
        C.kind.means result ≡ slice_index_or all code C.kind.group.zero }
{
    let (sum, left) = prefixes_sum(label, code);
    opposite_of(sum, left)
}

// The crossing of a word from that of its prefix, which is a zero and all its letters but the last.
fn next_crossing<C: Charge>(prefix: C, zeros: C, whole: C) -> C
    ensures { let gain = minus C.kind.group (C.kind.means zeros) (C.kind.means whole) in
        C.kind.means result ≡ C.kind.group.add (C.kind.means prefix) gain }
{
    prefix.plus(difference(zeros, whole))
}

// Fills a strip of as many charges with the crossings, each from that of its word's prefix, so that one label is asked
// for a word: J(v) = J(v / q) - d(v) + d(0). By index, since a prefix stands before its word in the strip.
pub(crate) fn fill_crossings<C: Charge, L: Label<C>>(label: &L, strip: &mut [C])
    requires { let d = L.labels C.kind label.now in
        length strip.old ≡ d.q ^ (d.m - 1) }
    ensures { map C.kind.means strip.new ≡ crossings C.kind padding (L.labels C.kind label.now) }
{
    let q = label.q();
    let zeros = label.label(0);
    strip[0] = crossing(label, 0);
    for v in 1..strip.len() {
        strip[v] = next_crossing(strip[v / q], zeros, label.label(v));
    }
}
