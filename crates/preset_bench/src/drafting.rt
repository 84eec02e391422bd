// A preset that was read, as a bench.
ghost use Rattle.std.specs.Prelude.{◌≡◌, Ok, Err, MatchResult};
ghost use Rattle.fault.specs.Refusals.{refusal};
ghost use Rattle.bench.specs.States.{draft_bench};
ghost use Rattle.preset_bench.specs.Finds.{preset_rule, preset_density, bench_checked_of};

use automaton::{TableDensity, TableRule};
use bench::Draft;
use charge::Charge;
use fault::Fault;
use preset::Loaded;

/// The bench of a preset's rule and of the density that some charges are, q^k of them, by the codes of their words.
///
/// # Errors
///
/// As `TableRule::fill`, `TableDensity::fill` and then `Draft::new`. Of a preset that was read and of charges that are
/// sent as its entries none is due.
///
/// ```rust
/// fill_charges(preset.entries, &mut charges)?;
/// let verdict = draft(preset, &charges)?.judge(&mut crossings, &mut ring)?;
/// ```
pub fn draft<'a, C: Charge>(
    preset: Loaded<'a>,
    charges: &'a [C],
) -> Result<Draft<C, TableRule<'a>, TableDensity<'a, C>>, Fault>
    ensures { let h = preset.entry.header in
        let letters = preset.entry.letters.now in
        let checked = bench_checked_of C.kind h letters charges.now in
        MatchResult result
        (λ d. (checked ≡ Ok tt)
        × ((draft_bench d).rule ≡ preset_rule h letters)
        × ((draft_bench d).density ≡ preset_density C.kind h charges.now))
        (λ f. checked ≡ Err (refusal f)) }
{
    let header = preset.header;
    let mut rule = TableRule::zero();
    rule.fill(header.q, header.n, header.l, preset.letters)?;
    let mut density = TableDensity::zero();
    density.fill(header.q, header.k, charges)?;
    Ok(Draft::new(rule, density)?)
}
