// Densities of one word and one charge.
ghost use Rattle.std.specs.Prelude.{◌≡◌, ◌<◌, take, if◌then◌else◌, IsTrue, OnOk, OnErr, nat_eq, nat_lt};
ghost use Rattle.fault.specs.Answers.{plainly};
ghost use Rattle.automaton.specs.Words.{code};
ghost use Rattle.fault.specs.declared.Stop.TheVariants.{BadLetter};
ghost use Rattle.automaton.specs.Ranges.{entry_or_zero};
ghost use Rattle.automaton.specs.Making.{pattern_density, zero_density, pattern_making, passes, lent_items, taken};

use crate::density::Density;
use crate::making::{Alphabet, check_density, take_checked};
use crate::ring::Ring;
use crate::word_set::WordSet;
use charge::Charge;
use fault::{Fault, Stop};

/// A density that gives its charge on one word, known by its code, and zero on all others.
#[derive(Drop)]
pub struct PatternDensity<C: Charge> {
    words: WordSet,
    pattern: usize,
    charge: C,
    ghost within: { pattern < words.count },
    // Zero, which a density that gives nothing has here, need not be an entry.
    ghost allowed: { IsTrue (entry_or_zero C.kind charge) },
}

impl<C: Charge> Density<C> for PatternDensity<C> {
    ghost use Rattle.automaton.specs.Meant.{pattern_meant, pattern_meant-weighed};

    ghost weights = { pattern_meant };

    ghost lawful = { pattern_meant-weighed };

    fn q(&self) -> usize {
        self.words.q
    }

    fn k(&self) -> usize {
        self.words.m
    }

    fn charge(&self, code: usize) -> C {
        charge_on(self.pattern, self.charge, code)
    }
}

impl<C: Charge> PatternDensity<C> {
    ghost use Rattle.automaton.specs.Meant.{pattern_meant, PatternsInRange};

    /// The density of two letters that weigh nothing, to be filled.
    pub fn zero() -> PatternDensity<C>
        ensures { pattern_meant C.kind result ≡ zero_density C.kind }
    {
        PatternDensity {
            words: WordSet::least(),
            pattern: 0,
            charge: C::zero(),
        }
    }

    /// Becomes the density that gives `charge` on the word of the first k letters of `word`, over q letters, or
    /// refuses and stays as it was. Letters past the first k are ignored.
    ///
    /// Refused by `BadAlphabet`, `BadWidth`, `TooManyWords` where q^k is above 4,096, `ShortStrip` where `word` has
    /// fewer than k letters, `BadLetter` at the index of the first letter not below q, and `BadEntry` where the
    /// charge may be no entry.
    #[tactic(auto, using(crate::proofs::VoicesInRange::patterns_in_range))]
    pub fn fill(&mut self, q: u64, k: u64, word: &[u8], charge: C) -> Result<(), Fault>
        ensures answer { plainly result ≡ passes (pattern_making C.kind q k word.now charge) }
        ensures density { OnOk result (pattern_meant C.kind self.new
            ≡ pattern_density C.kind q k (code q (take k word.now)) charge) }
        ensures err { OnErr result (self.new ≡ self.old) }
        ensures in_range { PatternsInRange }
    {
        let words = check_density(q, k)?;
        let letters = pattern_letters(words, word)?;
        Stop::BadEntry.unless(charge.is_entry())?;
        let ring = Ring {
            q: words.q,
            cells: letters,
        };
        let pattern = ring.code_from(words.m, 0);
        *self = PatternDensity {
            words,
            pattern,
            charge,
        };
        Ok(())
    }
}

// The letters of a pattern, from the front of a strip.
fn pattern_letters<'a>(words: WordSet, strip: &'a [u8]) -> Result<&'a [u8], Fault>
    ensures { lent_items result ≡ taken (λ a. nat_lt a words.q) BadLetter words.m strip.now }
{
    take_checked(&Alphabet { q: words.q }, words.m, strip)
}

// The charge on the pattern itself, and zero on every other code.
fn charge_on<C: Charge>(pattern: usize, charge: C, code: usize) -> C
    ensures { C.kind.means result
        ≡ (if nat_eq code pattern then C.kind.means charge else C.kind.group.zero) }
{
    if code == pattern { charge } else { C::zero() }
}
