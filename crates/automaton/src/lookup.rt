// Lent tables of a rule's answers, for rules that find an answer by its place.
ghost use Rattle.std.specs.Prelude.{◌≡◌, ℕ, ◌^◌, ◌<◌, Ok, Err, MatchResult, IfOk, nat_lt, slice_index};
ghost use Rattle.fault.specs.Refusals.{refusal};
ghost use Rattle.fault.specs.declared.Stop.TheVariants.{BadLetter};
ghost use Rattle.automaton.specs.Words.{Letters};
ghost use Rattle.automaton.specs.Making.{lookup_rule, LooksBelow, zero_rule, taken};

use crate::making::{Alphabet, take_checked};
use crate::word_set::WordSet;
use fault::Fault;

// The sizes of a rule, and the letters that its answers are taken from.
#[derive(Clone, Copy)]
pub(crate) struct LookupTable<'a> {
    pub words: WordSet,
    pub l: usize,
    pub letters: &'a [u8],
    ghost reach: { l < words.m },
    ghost below: { Letters words.q letters.now },
}

impl<'a> LookupTable<'a> {
    ghost use Rattle.automaton.specs.Meant.{looked_up};

    // The table of two letters and a window of one cell that has no letters: wherever answers are looked up, they are 0.
    pub(crate) fn zero() -> LookupTable<'a>
        ensures { (place : ℕ → ℕ → ℕ → ℕ) → looked_up place result ≡ zero_rule }
    {
        LookupTable {
            words: WordSet::least(),
            l: 0,
            letters: &[],
        }
    }

    // The first `places` letters of a strip: a rule that looks up only these is the rule of the whole strip.
    pub(crate) fn of(
        words: WordSet,
        l: u64,
        places: usize,
        letters: &'a [u8],
    ) -> Result<LookupTable<'a>, Fault>
        requires { l < words.m }
        ensures answer { let taking = taken (λ a. nat_lt a words.q) BadLetter places letters.now in
            MatchResult result (λ t. taking ≡ Ok t.letters.now) (λ f. taking ≡ Err (refusal f)) }
        ensures rule { IfOk result (λ t. (place : ℕ → ℕ → ℕ → ℕ) →
            LooksBelow places place words.q words.m →
            looked_up place t ≡ lookup_rule place words.q words.m l letters.now) }
    {
        let letters = take_checked(&Alphabet { q: words.q }, places, letters)?;
        Ok(LookupTable {
            words,
            l: l as usize,
            letters,
        })
    }

    // The letter at the place of a code, and 0 past the last code.
    pub(crate) fn answer(self, code: usize, place: usize) -> u8
        ensures { (place_of : ℕ → ℕ → ℕ → ℕ) →
            place ≡ place_of self.entry.words.q self.entry.words.m code →
            result ≡ slice_index (looked_up place_of self.entry).answers code }
    {
        if code < self.words.count {
            letter_at(self.letters, place)
        } else {
            0
        }
    }
}

// The letter at an index, and 0 past the last.
fn letter_at(letters: &[u8], index: usize) -> u8
    ensures { result ≡ slice_index letters.now index }
{
    letters.get(index).copied().unwrap_or(0)
}
