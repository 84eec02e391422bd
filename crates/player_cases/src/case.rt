// A line: a bench of any kind and of any form of rule and density, a script, and the strips for it.
use crate::kind::Played;
use crate::numbers::{read_numbers, to_index, to_letters, to_short, to_size};
use crate::playing::write_performed;
use crate::script::to_script;
use crate::strips::CaseStrips;
use anyhow::{anyhow, bail};
use automaton::{Density, PatternDensity, Rule, SumRule, TableDensity, TableRule};
use bench::Draft;
use charge::{Both, Cents, Channels, ChargeKind, Pitch, Voices};
use fault::Fault;
use std::alloc::{AllocError, Global};
use std::io::Write;

// The parts of a line.
#[derive(Clone, Copy)]
struct Case<'a> {
    rooms: &'a [i64],
    rule: &'a [i64],
    density: &'a [i64],
    rings: &'a [i64],
    calls: &'a [i64],
    later: &'a [i64],
}

// Each bench of the input can be made.
fn made(outcome: Result<(), Fault>) -> anyhow::Result<()> {
    outcome.map_err(|fault| anyhow!("{fault}"))
}

fn with_parts<C: Played, R: Rule + Drop, D: Density<C> + Drop, W: Write>(
    alloc: Global,
    out: &mut W,
    case: Case<'_>,
    rule: R,
    density: D,
) -> anyhow::Result<()> {
    let rings = to_letters(alloc, case.rings)?;
    let script = to_script(alloc, &rings, case.calls)?;
    let mut strips = CaseStrips::<C>::new(alloc, case.rooms)?;
    match Draft::new(rule, density) {
        Ok(draft) => write_performed(out, draft, &script, &mut strips, case.later)?,
        Err(refused) => made(Err(refused.fault))?,
    }
    Ok(())
}

fn to_charges<C: Played>(alloc: Global, numbers: &[i64]) -> Result<Vec<C>, AllocError> {
    let mut charges = Vec::new(alloc);
    for pair in numbers.chunks_exact(2) {
        charges.push(C::from_parts(pair[0], to_short(pair[1])))?;
    }
    Ok(charges)
}

fn with_rule<C: Played, R: Rule + Drop, W: Write>(
    alloc: Global,
    out: &mut W,
    case: Case<'_>,
    rule: R,
) -> anyhow::Result<()> {
    let [form, q, k, count, numbers @ ..] = case.density else {
        bail!("a density has four numbers at least");
    };
    if *form == 0 {
        let entries = to_charges::<C>(alloc, numbers)?;
        let mut density = TableDensity::zero();
        made(density.fill(to_size(*q), to_size(*k), &entries))?;
        return with_parts::<C, R, TableDensity<'_, C>, W>(alloc, out, case, rule, density);
    }
    let (letters, entry) = numbers.split_at(to_index(*count).min(numbers.len()));
    let letters = to_letters(alloc, letters)?;
    let [signed, plain] = entry else {
        bail!("a pattern has one charge");
    };
    let charge = C::from_parts(*signed, to_short(*plain));
    let mut density = PatternDensity::zero();
    made(density.fill(to_size(*q), to_size(*k), &letters, charge))?;
    with_parts::<C, R, PatternDensity<C>, W>(alloc, out, case, rule, density)
}

fn with_kind<C: Played, W: Write>(
    alloc: Global,
    out: &mut W,
    case: Case<'_>,
) -> anyhow::Result<()> {
    let [form, q, n, l, _, letters @ ..] = case.rule else {
        bail!("a rule has five numbers at least");
    };
    let letters = to_letters(alloc, letters)?;
    if *form == 0 {
        let mut rule = TableRule::zero();
        made(rule.fill(to_size(*q), to_size(*n), to_size(*l), &letters))?;
        return with_rule::<C, TableRule<'_>, W>(alloc, out, case, rule);
    }
    let mut rule = SumRule::zero();
    made(rule.fill(to_size(*q), to_size(*n), to_size(*l), &letters))?;
    with_rule::<C, SumRule<'_>, W>(alloc, out, case, rule)
}

fn read_parts(alloc: Global, text: &str) -> Result<Vec<Vec<i64>>, AllocError> {
    let mut parts = Vec::new(alloc);
    for part in text.split(';') {
        parts.push(read_numbers(alloc, part)?)?;
    }
    Ok(parts)
}

// Plays the script of a line, and prints what comes of it.
pub(crate) fn write_case<W: Write>(alloc: Global, out: &mut W, text: &str) -> anyhow::Result<()> {
    let parts = read_parts(alloc, text)?;
    let [sizes, rule, density, rings, calls, later] = parts.as_slice() else {
        bail!("a line has six parts");
    };
    let [kind, rooms @ ..] = sizes.as_slice() else {
        bail!("a line begins with its kind");
    };
    let case = Case {
        rooms,
        rule,
        density,
        rings,
        calls,
        later,
    };
    match ChargeKind::try_from(to_size(*kind)) {
        Ok(ChargeKind::Voices) => with_kind::<Voices, W>(alloc, out, case),
        Ok(ChargeKind::Pitch) => with_kind::<Pitch, W>(alloc, out, case),
        Ok(ChargeKind::Channels) => with_kind::<Channels, W>(alloc, out, case),
        Ok(ChargeKind::Both) => with_kind::<Both, W>(alloc, out, case),
        Ok(ChargeKind::Cents) => with_kind::<Cents, W>(alloc, out, case),
        Err(_) => bail!("a kind is 0 to 4"),
    }
}
