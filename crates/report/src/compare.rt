// The densities of two presets that were read, compared.
ghost use Rattle.std.specs.Prelude.{length};
ghost use Rattle.bench.specs.Verdicts.{lent};
ghost use Rattle.preset_bench.specs.Finds.{preset_density};
ghost use Rattle.report.specs.Finds.{CompareFinds, pair_found};

use automaton::TableDensity;
use bench::{Break, compare};
use charge::Charge;
use fault::Fault;
use preset::Header;

// Compares the densities of two headers and two tables of charges.
pub(crate) fn compare_tables<C: Charge>(
    first: Header,
    charges: &[C],
    second: Header,
    others: &[C],
    crossings: &mut [C],
    ring: &mut [u8],
) -> Result<Option<Break<C>>, Fault>
    ensures { let d = preset_density C.kind first charges.now in
        let e = preset_density C.kind second others.now in
        let found = pair_found C.kind first charges.now second others.now
        (length crossings.old) (length ring.old) in
        CompareFinds C.kind d e found
        (lent crossings.old ring.old) (lent crossings.new ring.new) result }
{
    let mut density = TableDensity::zero();
    density.fill(first.q, first.k, charges)?;
    let mut other = TableDensity::zero();
    other.fill(second.q, second.k, others)?;
    Ok(compare(&density, &other, crossings, ring)?.found())
}
