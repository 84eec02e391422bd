// Rules by a table of the answers in the order of the codes.
ghost use Rattle.std.specs.Prelude.{◌≡◌, ◌^◌, OnOk, OnErr};
ghost use Rattle.fault.specs.Answers.{plainly};
ghost use Rattle.automaton.specs.Making.{table_rule, by_code, zero_rule, rule_making, passes};

use crate::lookup::LookupTable;
use crate::making::check_rule;
use crate::rule::Rule;
use fault::Fault;

/// A rule of which the answers stand in a table that the caller lends, in the order of the codes.
#[derive(Clone, Copy)]
pub struct TableRule<'a> {
    table: LookupTable<'a>,
}

impl Rule for TableRule<'_> {
    ghost use Rattle.automaton.specs.Meant.{table_rule_meant, looked_up-lawful};

    ghost meaning = { table_rule_meant };

    ghost lawful = { λ t. looked_up-lawful by_code t.table };

    fn q(&self) -> usize {
        self.table.words.q
    }

    fn n(&self) -> usize {
        self.table.words.m
    }

    fn l(&self) -> usize {
        self.table.l
    }

    fn answer(&self, code: usize) -> u8 {
        self.table.answer(code, code)
    }
}

impl<'a> TableRule<'a> {
    ghost use Rattle.automaton.specs.Meant.{table_rule_meant};

    /// The rule of two letters and a window of one cell that answers 0, to be filled.
    pub fn zero() -> TableRule<'a>
        ensures { table_rule_meant result ≡ zero_rule }
    {
        TableRule {
            table: LookupTable::zero(),
        }
    }

    /// Becomes the rule of the first q^n letters, in the order of the codes of words, or refuses and stays as it was.
    /// Letters past those are ignored.
    ///
    /// Refused by `BadAlphabet`, `BadWindow`, `BadReach`, `TooManyWords` where q^n is above 4,096, `ShortStrip` where
    /// there are fewer letters, and `BadLetter` at the index of the first letter not below q.
    ///
    /// ```rust
    /// let mut rule_184 = TableRule::zero();
    /// rule_184.fill(2, 3, 1, &[0, 0, 0, 1, 1, 1, 0, 1])?;
    /// ```
    pub fn fill(&mut self, q: u64, n: u64, l: u64, letters: &'a [u8]) -> Result<(), Fault>
        ensures answer { plainly result ≡ passes (rule_making q n l (q ^ n) letters.now) }
        ensures rule { OnOk result (table_rule_meant self.new ≡ table_rule q n l letters.now) }
        ensures err { OnErr result (self.new ≡ self.old) }
    {
        let words = check_rule(q, n, l)?;
        self.table = LookupTable::of(words, l, words.count, letters)?;
        Ok(())
    }
}
