// Rules by a table of the answers, one for each sum of the window's letters.
ghost use Rattle.std.specs.Prelude.{◌≡◌, OnOk, OnErr};
ghost use Rattle.fault.specs.Answers.{plainly};
ghost use Rattle.automaton.specs.Making.{sum_rule, by_sum, sum_count, zero_rule, rule_making, passes};

use crate::lookup::LookupTable;
use crate::making::check_rule;
use crate::rule::Rule;
use crate::word_set::WordSet;
use fault::Fault;

/// A rule of which the answer for a word stands at the sum of its letters, in a table that the caller lends.
#[derive(Clone, Copy)]
pub struct SumRule<'a> {
    table: LookupTable<'a>,
}

// The sum of the letters of the word of a code.
fn sum_of(words: WordSet, code: usize) -> usize
    ensures { result ≡ by_sum words.q words.m code }
{
    let mut front = code;
    let mut sum = 0;
    for _ in 0..words.m {
        sum += front % words.q;
        front /= words.q;
    }
    sum
}

// How many sums the words have.
fn sums(words: WordSet) -> usize
    ensures { result ≡ sum_count words.q words.m }
{
    words.m * (words.q - 1) + 1
}

impl Rule for SumRule<'_> {
    ghost use Rattle.automaton.specs.Meant.{sum_rule_meant, looked_up-lawful};

    ghost meaning = { sum_rule_meant };

    ghost lawful = { λ t. looked_up-lawful by_sum t.table };

    fn q(&self) -> usize {
        self.table.words.q
    }

    fn n(&self) -> usize {
        self.table.words.m
    }

    fn l(&self) -> usize {
        self.table.l
    }

    fn answer(&self, code: usize) -> u8 {
        self.table.answer(code, sum_of(self.table.words, code))
    }
}

impl<'a> SumRule<'a> {
    ghost use Rattle.automaton.specs.Meant.{sum_rule_meant};

    /// The rule of two letters and a window of one cell that answers 0, to be filled.
    pub fn zero() -> SumRule<'a>
        ensures { sum_rule_meant result ≡ zero_rule }
    {
        SumRule {
            table: LookupTable::zero(),
        }
    }

    /// Becomes the rule of the first n (q - 1) + 1 letters, one for each sum of a window's letters, or refuses and
    /// stays as it was. Letters past those are ignored.
    ///
    /// Refused by `BadAlphabet`, `BadWindow`, `BadReach`, `TooManyWords` where q^n is above 4,096, `ShortStrip` where
    /// there are fewer letters, and `BadLetter` at the index of the first letter not below q.
    pub fn fill(&mut self, q: u64, n: u64, l: u64, letters: &'a [u8]) -> Result<(), Fault>
        ensures answer { plainly result ≡ passes (rule_making q n l (sum_count q n) letters.now) }
        ensures rule { OnOk result (sum_rule_meant self.new ≡ sum_rule q n l letters.now) }
        ensures err { OnErr result (self.new ≡ self.old) }
    {
        let words = check_rule(q, n, l)?;
        self.table = LookupTable::of(words, l, sums(words), letters)?;
        Ok(())
    }
}
