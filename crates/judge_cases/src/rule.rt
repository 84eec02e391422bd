// Rules as they stand on a line.
ghost use Rattle.judge_cases.specs.Forms.{rule_meaning, rule_lawful};

use crate::numbers::Numbers;
use automaton::{Rule, SumRule, TableRule};
use fault::Fault;
use std::alloc::{AllocError, Global};

// A rule by a table, or by a table of sums. An enum and no `dyn Rule`, since a bench takes its rule by value.
#[derive(Clone, Copy)]
pub enum AnyRule<'a> {
    Table(TableRule<'a>),
    Sum(SumRule<'a>),
}

impl Rule for AnyRule<'_> {
    ghost meaning = { rule_meaning };

    ghost lawful = { rule_lawful };

    fn q(&self) -> usize {
        match self {
            AnyRule::Table(rule) => rule.q(),
            AnyRule::Sum(rule) => rule.q(),
        }
    }

    fn n(&self) -> usize {
        match self {
            AnyRule::Table(rule) => rule.n(),
            AnyRule::Sum(rule) => rule.n(),
        }
    }

    fn l(&self) -> usize {
        match self {
            AnyRule::Table(rule) => rule.l(),
            AnyRule::Sum(rule) => rule.l(),
        }
    }

    fn answer(&self, code: usize) -> u8 {
        match self {
            AnyRule::Table(rule) => rule.answer(code),
            AnyRule::Sum(rule) => rule.answer(code),
        }
    }
}

// Which of the two forms a line gives, by its number.
#[derive(Clone, Copy)]
enum RuleForm {
    Table,
    Sum,
}

impl From<usize> for RuleForm {
    fn from(number: usize) -> RuleForm {
        match number {
            1 => RuleForm::Sum,
            _ => RuleForm::Table,
        }
    }
}

// The parts of a rule.
#[derive(Drop)]
pub struct RuleLine {
    form: RuleForm,
    q: u64,
    n: u64,
    l: u64,
    letters: Vec<u8>,
}

impl RuleLine {
    pub(crate) fn read(alloc: Global, numbers: &mut Numbers) -> Result<RuleLine, AllocError> {
        Ok(RuleLine {
            form: RuleForm::from(numbers.count()),
            q: numbers.plain(),
            n: numbers.plain(),
            l: numbers.plain(),
            letters: numbers.letters(alloc)?,
        })
    }

    pub(crate) fn rule(&self) -> Result<AnyRule<'_>, Fault> {
        match self.form {
            RuleForm::Table => {
                let mut rule = TableRule::zero();
                rule.fill(self.q, self.n, self.l, &self.letters)?;
                Ok(AnyRule::Table(rule))
            }
            RuleForm::Sum => {
                let mut rule = SumRule::zero();
                rule.fill(self.q, self.n, self.l, &self.letters)?;
                Ok(AnyRule::Sum(rule))
            }
        }
    }
}
