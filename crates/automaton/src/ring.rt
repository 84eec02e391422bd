// Rings, their next rings and their totals.
ghost use Rattle.std.specs.Prelude.{◌≡◌, ◌+◌, ◌-◌, ◌%◌, ◌<◌, ◌≤◌, length, Ok, Err, MatchResult, slice_index, slice_index_or, slice_set};
ghost use Rattle.fault.specs.Limits.{most_letters, most_window, most_cells};
ghost use Rattle.fault.specs.Refusals.{refusal};
ghost use Rattle.fault.specs.Answers.{plainly, and_then, strip_after, at_front};
ghost use Rattle.automaton.specs.Words.{Letters, code, window, cell, before};
ghost use Rattle.automaton.specs.Meanings.{next, booking_offset, site};
ghost use Rattle.automaton.specs.Meanings.{total as total_of};
ghost use Rattle.automaton.specs.Making.{ring_checked, passes, charged};

use crate::density::Density;
use crate::making::{Alphabet, check_each};
use crate::rule::Rule;
use charge::Charge;
use fault::limits::MOST_CELLS;
use fault::{Fault, Stop};

/// Where the cells of a window stand around a cell. `width` is at most 12.
#[derive(Clone, Copy)]
pub struct Span {
    /// How many of them stand before the cell itself.
    pub before: usize,
    /// How many cells the window has.
    pub width: usize,
    pub ghost narrow: { width ≤ most_window },
}

// A window's charge is booked at its first cell.
const BOOKING_OFFSET: usize = 0;

/// A ring of 1 to 4,096 cells, each of which has a letter below q; q is at most 8. Cell i is also cell i + L, where L
/// is the number of cells.
#[derive(Clone, Copy)]
pub struct Ring<'a> {
    /// What the letters are below.
    pub q: usize,
    /// The letters, cell by cell.
    pub cells: &'a [u8],
    pub ghost few: { q ≤ most_letters },
    pub ghost some: { 1 ≤ length cells.now },
    pub ghost most: { length cells.now ≤ most_cells },
    pub ghost letters: { Letters q cells.now },
}

impl<'a> Ring<'a> {
    ghost use Rattle.automaton.specs.Meant.{RingOf};

    // The ring of these cells, with `room` for as many, or the refusal. The bound on q is the rule's or the density's.
    fn try_new(q: usize, room: usize, cells: &'a [u8]) -> Result<Ring<'a>, Fault>
        requires { q ≤ 8 }
        ensures { let checked = ring_checked q room cells.now in
            MatchResult result
            (λ r. (checked ≡ Ok r.cells.now) × RingOf q cells.now r × (length cells.now ≤ room))
            (λ f. checked ≡ Err (refusal f)) }
    {
        Stop::BadLength.unless(1 <= cells.len() && cells.len() <= MOST_CELLS)?;
        Stop::ShortStrip.unless(cells.len() <= room)?;
        check_each(&Alphabet { q }, cells)?;
        Ok(Ring { q, cells })
    }

    /// The ring of these cells under a rule, where another strip has `room` for as many.
    ///
    /// Refused by `BadLength` where there are none or more than 4,096, `ShortStrip` where `room` is less than that,
    /// and `BadLetter` at the first cell whose letter is not below the rule's q.
    pub fn under<R: Rule>(rule: &R, room: usize, cells: &'a [u8]) -> Result<Ring<'a>, Fault>
        ensures { let q = (R.meaning rule.now).q in
            let checked = ring_checked q room cells.now in
            MatchResult result
            (λ r. (checked ≡ Ok r.cells.now) × RingOf q cells.now r × (length cells.now ≤ room))
            (λ f. checked ≡ Err (refusal f)) }
    {
        Ring::try_new(rule.q(), room, cells)
    }

    // The code of the cells from `start` on, which may pass the same cell more than once.
    pub(crate) fn code_from(self, width: usize, start: usize) -> usize
        requires { (width ≤ 12) × (start ≤ 8192) }
        ensures { result ≡ code self.entry.q (window width (cell self.entry.cells.now) start) }
    {
        let mut code = 0;
        // By index, since an index goes straight to the start, where a cycle of the cells would be walked up to it.
        for i in start..start + width {
            code = code * self.q + self.cells[i % self.cells.len()] as usize;
        }
        code
    }

    // The index of the cell `before` cells before cell i, a round or two on.
    fn index_before(self, before: usize, i: usize) -> usize
        ensures { let round = length self.entry.cells.now in
            result ≡ i % round + (round - before % round) }
    {
        let len = self.cells.len();
        i % len + (len - before % len)
    }

    /// The code of the word in the cells around cell i, any number from 0 on. A cell may stand in the word more than
    /// once.
    pub fn span_code(self, span: Span, i: usize) -> usize
        ensures { let cells = self.entry.cells.now in
            result ≡ code self.entry.q
            (window span.width (cell cells) (before (length cells) span.before i)) }
    {
        self.code_from(span.width, self.index_before(span.before, i))
    }

    // The next letter of cell i.
    fn next_letter<R: Rule>(self, rule: &R, i: usize) -> u8
        requires alphabet { (R.meaning rule.now).q ≡ self.q }
        requires cell { i < length self.cells.now }
        ensures { result ≡ slice_index (next (R.meaning rule.now) self.entry.cells.now) i }
    {
        let span = Span {
            before: rule.l(),
            width: rule.n(),
        };
        rule.answer(self.span_code(span, i))
    }

    // Writes the next letter of cell i to its place in the strip.
    fn write_letter<R: Rule>(self, rule: &R, strip: &mut [u8], i: usize)
        requires alphabet { (R.meaning rule.now).q ≡ self.q }
        requires cell { i < length self.cells.now }
        requires room { length self.cells.now ≤ length strip.old }
        ensures { strip.new
            ≡ slice_set strip.old i
            (slice_index (next (R.meaning rule.now) self.entry.cells.now) i) }
    {
        strip[i] = self.next_letter(rule, i);
    }

    // Writes the next letters to the front of the strip, where there is room.
    fn write_next<R: Rule>(self, rule: &R, strip: &mut [u8])
        requires alphabet { (R.meaning rule.now).q ≡ self.q }
        requires room { length self.cells.now ≤ length strip.old }
        ensures { strip.new ≡ at_front (next (R.meaning rule.now) self.entry.cells.now) strip.old }
    {
        for (i, _) in self.cells.iter().enumerate() {
            self.write_letter(rule, strip, i);
        }
    }

    /// The charge of site i, any number from 0 on: what the density gives the word in the k cells from cell i on.
    pub fn site_charge<C: Charge, D: Density<C>>(self, density: &D, i: usize) -> C
        ensures { let d = D.weights C.kind density.now in
            let cells = self.entry.cells.now in
            let booked = window d.k (cell cells) (before (length cells) booking_offset i) in
            C.kind.means result
            ≡ slice_index_or d.charges (code self.entry.q booked) C.kind.group.zero }
    {
        let span = Span {
            before: BOOKING_OFFSET,
            width: density.k(),
        };
        density.charge(self.span_code(span, i))
    }

    // The sum over the sites.
    fn sum_sites<C: Charge, D: Density<C>>(self, density: &D) -> C
        requires { (D.weights C.kind density.now).q ≡ self.q }
        ensures { C.kind.means result
            ≡ total_of C.kind.group (D.weights C.kind density.now) self.entry.cells.now }
    {
        let mut sum = C::zero();
        for (i, _) in self.cells.iter().enumerate() {
            sum = sum.plus(self.site_charge(density, i));
        }
        sum
    }
}

/// Writes the ring after one step to the front of a strip, whose entries past it stay: the next letter of cell i is
/// the rule's answer for the word in the n cells from l cells before cell i on.
///
/// Refused by `BadLength` where the ring does not have 1 to 4,096 cells, `ShortStrip` where the strip has fewer, and
/// `BadLetter` at the first cell whose letter is not below the rule's q. A refusal writes nothing.
///
/// ```rust
/// next_ring(&rule_184, &[1, 1, 0, 0], &mut strip)?; // 1, 0, 1, 0 at the front of the strip
/// ```
pub fn next_ring<R: Rule>(rule: &R, ring: &[u8], strip: &mut [u8]) -> Result<(), Fault>
    ensures answer { plainly result
        ≡ passes (ring_checked (R.meaning rule.now).q (length strip.old) ring.now) }
    ensures strip { let r = R.meaning rule.now in
        let checked = ring_checked r.q (length strip.old) ring.now in
        strip.new ≡ strip_after (next r) strip.old checked }
{
    Ring::try_new(rule.q(), strip.len(), ring)?.write_next(rule, strip);
    Ok(())
}

/// The total of a ring: the sum of the charges of its sites.
///
/// Refused by `BadLength` where the ring does not have 1 to 4,096 cells, and `BadLetter` at the first cell whose
/// letter is not below the density's q.
pub fn total<C: Charge, D: Density<C>>(density: &D, ring: &[u8]) -> Result<C, Fault>
    ensures { let d = D.weights C.kind density.now in
        charged C.kind result
        ≡ and_then (ring_checked d.q (length ring.now) ring.now)
        (λ c. Ok (total_of C.kind.group d c)) }
{
    Ok(Ring::try_new(density.q(), ring.len(), ring)?.sum_sites(density))
}
