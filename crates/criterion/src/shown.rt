// The ring that shows that a word fails.
ghost use Rattle.std.specs.Prelude.{◌≡◌, ◌-◌, ◌*◌, ◌≤◌, length, take, drop, if◌then◌else◌, Ok};
ghost use Rattle.fault.specs.Answers.{plainly, at_front};
ghost use Rattle.automaton.specs.Words.{Letters, word};
ghost use Rattle.criterion.specs.Search.{padding, sums_to_zero, shown};

use crate::label::{Label, LabelDensity};
use automaton::{Density, total};
use charge::Charge;
use fault::Fault;

/// How many cells the longest ring has that is shown: a word of 12 letters and 11 zeros.
///
/// A strip of so many cells, such as `[0u8; MOST_SHOWN]`, is never too short for one.
pub const MOST_SHOWN: usize = 23;

// Writes the word of a code, of as many letters as there is room for. The range is reversed, and not the slots: of
// reversed slots a proof knows nothing. The bounds on q are the label's.
fn write_word(q: usize, code: usize, letters: &mut [u8])
    requires { (1 ≤ q) × (q ≤ 8) }
    ensures { letters.new ≡ word q (length letters.old) code }
{
    let mut rest = code;
    for i in (0..letters.len()).rev() {
        letters[i] = (rest % q) as u8;
        rest /= q;
    }
}

// Whether the labels of a ring sum to zero.
fn sums_to_zero<C: Charge, L: Label<C>>(label: &L, ring: &[u8]) -> Result<bool, Fault>
    requires length { (1 ≤ length ring.now) × (length ring.now ≤ 4096) }
    requires letters { Letters (L.labels C.kind label.now).q ring.now }
    ensures { plainly result ≡ Ok (sums_to_zero C.kind (L.labels C.kind label.now) ring.now) }
{
    let sum: C = total(&LabelDensity { label }, ring)?;
    Ok(sum.same(C::zero()))
}

// Copies a ring to the front of the strip, where there is room, and answers its length.
fn copy_ring(ring: &[u8], strip: &mut [u8]) -> usize
    requires { length ring.now ≤ length strip.old }
    ensures answer { result ≡ length ring.now }
    ensures strip { strip.new ≡ at_front ring.now strip.old }
{
    strip[..ring.len()].copy_from_slice(ring);
    ring.len()
}

// Ring A, or ring B, which is ring A without its first cell, where ring A sums to zero.
fn ring_of<'a>(ring: &'a [u8], zero: bool) -> &'a [u8]
    requires { 1 ≤ length ring.now }
    ensures { let inner = take (length ring.now - 1) (drop 1 ring.now) in
        result.now ≡ (if zero then inner else ring.now) }
{
    if zero { &ring[1..] } else { ring }
}

// Writes the ring that shows that the word of a code fails to the front of the strip, and answers its length.
pub(crate) fn write_shown<C: Charge, L: Label<C>>(
    label: &L,
    code: usize,
    strip: &mut [u8],
) -> Result<usize, Fault>
    requires { 2 * (L.labels C.kind label.now).m - 1 ≤ length strip.old }
    ensures answer { let d = L.labels C.kind label.now in
        plainly result ≡ Ok (length (shown C.kind padding d (word d.q d.m code))) }
    ensures strip { let d = L.labels C.kind label.now in
        strip.new ≡ at_front (shown C.kind padding d (word d.q d.m code)) strip.old }
{
    let m = label.m();
    let mut cells = [0u8; MOST_SHOWN];
    write_word(label.q(), code, &mut cells[..m]);
    let ring = &cells[..2 * m - 1];
    let zero = sums_to_zero(label, ring)?;
    Ok(copy_ring(ring_of(ring, zero), strip))
}
