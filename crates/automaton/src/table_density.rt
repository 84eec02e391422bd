// Densities by a lent table of their charges.
ghost use Rattle.std.specs.Prelude.{◌≡◌, ◌<◌, ◌≤◌, length, IsTrue, OnOk, OnErr, slice_index_or};
ghost use Rattle.std.specs.List.{list_all};
ghost use Rattle.fault.specs.Answers.{plainly};
ghost use Rattle.fault.specs.declared.Stop.TheVariants.{BadEntry};
ghost use Rattle.automaton.specs.Making.{table_density, zero_density, table_making, passes, lent_items, taken};

use crate::density::Density;
use crate::making::{Entries, check_density, take_checked};
use crate::word_set::WordSet;
use charge::Charge;
use fault::Fault;

/// A density of which the charges stand in a table that the caller lends, in the order of the codes.
#[derive(Drop)]
pub struct TableDensity<'a, C: Charge> {
    words: WordSet,
    entries: &'a [C],
    ghost exact: { length entries.now ≤ words.count },
    ghost allowed: { IsTrue (list_all C.kind.entry entries.now) },
}

impl<C: Charge> Density<C> for TableDensity<'_, C> {
    ghost use Rattle.automaton.specs.Meant.{table_meant, table_meant-weighed};

    ghost weights = { table_meant };

    ghost lawful = { table_meant-weighed };

    fn q(&self) -> usize {
        self.words.q
    }

    fn k(&self) -> usize {
        self.words.m
    }

    fn charge(&self, code: usize) -> C {
        charge_at(self.entries, code)
    }
}

impl<'a, C: Charge> TableDensity<'a, C> {
    ghost use Rattle.automaton.specs.Meant.{table_meant, TablesInRange};

    /// The density of two letters that weigh nothing, to be filled.
    pub fn zero() -> TableDensity<'a, C>
        ensures { table_meant C.kind result ≡ zero_density C.kind }
    {
        TableDensity {
            words: WordSet::least(),
            entries: &[],
        }
    }

    /// Becomes the density of the first q^k entries, in the order of the codes of words, or refuses and stays as it
    /// was. Entries past those are ignored.
    ///
    /// Refused by `BadAlphabet`, `BadWidth`, `TooManyWords` where q^k is above 4,096, `ShortStrip` where there are
    /// fewer entries, and `BadEntry` at the index of the first charge that may be no entry.
    #[tactic(auto, using(crate::proofs::VoicesInRange::tables_in_range))]
    pub fn fill(&mut self, q: u64, k: u64, entries: &'a [C]) -> Result<(), Fault>
        ensures answer { plainly result ≡ passes (table_making C.kind q k entries.now) }
        ensures density { OnOk result (table_meant C.kind self.new
            ≡ table_density C.kind q k entries.now) }
        ensures err { OnErr result (self.new ≡ self.old) }
        ensures in_range { TablesInRange }
    {
        let words = check_density(q, k)?;
        let entries = table_entries(words, entries)?;
        *self = TableDensity { words, entries };
        Ok(())
    }
}

// The entries of a table, one for each word, from the front of a strip.
fn table_entries<'a, C: Charge>(words: WordSet, strip: &'a [C]) -> Result<&'a [C], Fault>
    ensures { lent_items result ≡ taken C.kind.entry BadEntry words.count strip.now }
{
    take_checked(&Entries, words.count, strip)
}

// The charge at an index, and zero past the last.
fn charge_at<C: Charge>(entries: &[C], index: usize) -> C
    ensures inside { index < length entries.now → result ≡ slice_index_or entries.now index result }
    ensures past { length entries.now ≤ index → C.kind.means result ≡ C.kind.group.zero }
{
    entries.get(index).copied().unwrap_or(C::zero())
}
