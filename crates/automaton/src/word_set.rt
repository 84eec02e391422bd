// The words of a window or of a width.
ghost use Rattle.std.specs.Prelude.{◌≡◌, ◌^◌, ◌≤◌, Ok, Err, MatchResult};
ghost use Rattle.fault.specs.Limits.{most_words};
ghost use Rattle.fault.specs.Refusals.{refusal};
ghost use Rattle.automaton.specs.Meanings.{DensityLimits};
ghost use Rattle.automaton.specs.Making.{words_counted};

use fault::limits::word_count;
use fault::{Fault, Stop};

/// The words of m letters below q, and how many these are: at most 4,096.
#[derive(Clone, Copy)]
pub struct WordSet {
    /// The alphabet size, 2 to 8.
    pub q: usize,
    /// How many letters each word has, 1 to 12.
    pub m: usize,
    /// How many words there are: q^m.
    pub count: usize,
    pub ghost sizes: { DensityLimits q m },
    pub ghost few: { q ^ m ≤ most_words },
    pub ghost counted: { count ≡ q ^ m },
}

impl WordSet {
    // The two words of one letter below 2.
    pub(crate) fn least() -> WordSet
        ensures { (result.q ≡ 2) × (result.m ≡ 1) }
    {
        WordSet {
            q: 2,
            m: 1,
            count: 2,
        }
    }

    // The words of m letters below q, where these numbers have passed, unless there are too many.
    pub(crate) fn few(q: u64, m: u64) -> Result<WordSet, Fault>
        requires { (2 ≤ q) × (q ≤ 8) × (1 ≤ m) × (m ≤ 12) }
        ensures { MatchResult result
            (λ w. (words_counted q m ≡ Ok w.count) × (w.q ≡ q) × (w.m ≡ m))
            (λ f. words_counted q m ≡ Err (refusal f)) }
    {
        let count = word_count(q, m).ok_or(Stop::TooManyWords.at(0))?;
        Ok(WordSet {
            q: q as usize,
            m: m as usize,
            count,
        })
    }
}
