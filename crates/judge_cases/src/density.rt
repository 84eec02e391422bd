// Densities as they stand on a line.
ghost use Rattle.judge_cases.specs.Forms.{density_weights, density_lawful};

use crate::kind::Tried;
use crate::numbers::Numbers;
use automaton::{Density, PatternDensity, TableDensity};
use charge::Charge;
use fault::Fault;
use std::alloc::{AllocError, Global};

// A density by a table of entries, or by a pattern, as an enum for the same reason as a rule.
#[derive(Drop)]
pub enum AnyDensity<'a, C: Charge> {
    Table(TableDensity<'a, C>),
    Pattern(PatternDensity<C>),
}

impl<C: Charge> Density<C> for AnyDensity<'_, C> {
    ghost weights = { density_weights };

    ghost lawful = { density_lawful };

    fn q(&self) -> usize {
        match self {
            AnyDensity::Table(density) => density.q(),
            AnyDensity::Pattern(density) => density.q(),
        }
    }

    fn k(&self) -> usize {
        match self {
            AnyDensity::Table(density) => density.k(),
            AnyDensity::Pattern(density) => density.k(),
        }
    }

    fn charge(&self, code: usize) -> C {
        match self {
            AnyDensity::Table(density) => density.charge(code),
            AnyDensity::Pattern(density) => density.charge(code),
        }
    }
}

// What a density is made of: the entries of a table, or the letters and the charge of a pattern.
#[derive(Drop)]
enum DensityParts<C> {
    Table(Vec<C>),
    Pattern(Vec<u8>, C),
}

// The parts of a density.
#[derive(Drop)]
pub struct DensityLine<C> {
    q: u64,
    k: u64,
    parts: DensityParts<C>,
}

fn read_entry<C: Tried>(numbers: &mut Numbers) -> C {
    let signed = numbers.signed();
    C::from_parts(signed, numbers.plain())
}

fn read_entries<C: Tried>(alloc: Global, numbers: &mut Numbers) -> Result<Vec<C>, AllocError> {
    let mut entries = Vec::new(alloc);
    for _ in 0..numbers.count() {
        entries.push(read_entry::<C>(numbers))?;
    }
    Ok(entries)
}

impl<C: Tried> DensityLine<C> {
    pub(crate) fn read(alloc: Global, numbers: &mut Numbers) -> Result<DensityLine<C>, AllocError> {
        let form = numbers.count();
        let q = numbers.plain();
        let k = numbers.plain();
        let parts = match form {
            1 => {
                let letters = numbers.letters(alloc)?;
                DensityParts::Pattern(letters, read_entry::<C>(numbers))
            }
            _ => DensityParts::Table(read_entries::<C>(alloc, numbers)?),
        };
        Ok(DensityLine { q, k, parts })
    }

    pub(crate) fn density(&self) -> Result<AnyDensity<'_, C>, Fault> {
        match &self.parts {
            DensityParts::Table(entries) => {
                let mut density = TableDensity::zero();
                density.fill(self.q, self.k, entries)?;
                Ok(AnyDensity::Table(density))
            }
            DensityParts::Pattern(letters, charge) => {
                let mut density = PatternDensity::zero();
                density.fill(self.q, self.k, letters, *charge)?;
                Ok(AnyDensity::Pattern(density))
            }
        }
    }
}
