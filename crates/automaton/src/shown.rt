// Words and rings, shown as digits.
ghost use Rattle.std.specs.Prelude.{◌≤◌, Some};
ghost use Rattle.automaton.specs.Shown.{digits};
ghost use Rattle.automaton.specs.Words.{word};

use std::fmt;

/// Letters, shown in decimal one after another with nothing between.
#[derive(Clone, Copy)]
pub struct ShownLetters<'a> {
    /// The letters, the first one first.
    pub letters: &'a [u8],
}

impl fmt::Display for ShownLetters<'_> {
    ghost output = { λ w. Some (digits w.letters.now) };

    fn fmt<W: fmt::Write>(&self, f: &mut fmt::Formatter<W>) -> fmt::Result {
        for letter in self.letters {
            write!(f, "{letter}")?;
        }
        Ok(())
    }
}

/// The word of m letters below q with a code, shown in the same way; q is at least 1.
#[derive(Clone, Copy)]
pub struct ShownWord {
    /// What the letters are below.
    pub q: usize,
    /// How many letters the word has.
    pub m: usize,
    /// The word's value in base q, with the first letter most significant.
    pub code: usize,
    pub ghost some: { 1 ≤ q },
}

impl fmt::Display for ShownWord {
    ghost output = { λ w. Some (digits (word w.q w.m w.code)) };

    fn fmt<W: fmt::Write>(&self, f: &mut fmt::Formatter<W>) -> fmt::Result {
        if self.m == 0 {
            return Ok(());
        }
        let front = ShownWord {
            q: self.q,
            m: self.m - 1,
            code: self.code / self.q,
        };
        let last = self.code % self.q;
        front.fmt(f)?;
        write!(f, "{last}")
    }
}
