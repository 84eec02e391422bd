// The four calls, over every kind, form of rule and form of density.
use crate::density::DensityLine;
use crate::error::CaseError;
use crate::kind::Tried;
use crate::numbers::Numbers;
use crate::rule::RuleLine;
use crate::show::{MARK, write_end, write_fault};
use crate::strips::{JudgeStrips, Rooms};
use automaton::{Density, Rule, ShownLetters, next_ring, total};
use bench::{Draft, compare};
use charge::{ChargeKind, Voices};
use preset::by_kind;
use std::alloc::Global;
use std::io;
use std::io::Write;

// The calls, by their numbers on a line.
#[derive(Clone, Copy)]
enum CaseCall {
    Judge,
    Compare,
    NextRing,
    Total,
}

impl From<usize> for CaseCall {
    fn from(number: usize) -> CaseCall {
        match number {
            0 => CaseCall::Judge,
            1 => CaseCall::Compare,
            2 => CaseCall::NextRing,
            _ => CaseCall::Total,
        }
    }
}

// A rule judged under a density. The four things that each call takes make no struct, since they are lent one by one.
fn judge_parts<C: Tried, R: Rule + Drop, D: Density<C> + Drop, W: Write>(
    alloc: Global,
    out: &mut W,
    rule: R,
    density: D,
    rooms: Rooms,
) -> Result<(), CaseError> {
    let m = rule.n().saturating_add(density.k()).saturating_sub(1);
    let mut strips = JudgeStrips::<C>::new(alloc, rooms, rule.q(), m)?;
    let draft = Draft::new(rule, density)?;
    let verdict = draft.judge(&mut strips.crossings, &mut strips.ring)?;
    strips.write_found(out, "holds", "breaks", verdict.found())?;
    Ok(())
}

fn judge_case<C: Tried, W: Write>(
    alloc: Global,
    out: &mut W,
    numbers: &mut Numbers,
    rooms: Rooms,
) -> Result<(), CaseError> {
    let rule = RuleLine::read(alloc, numbers)?;
    let density = DensityLine::<C>::read(alloc, numbers)?;
    let rule = rule.rule().map_err(CaseError::First)?;
    let density = density.density().map_err(CaseError::Second)?;
    judge_parts(alloc, out, rule, density, rooms)
}

// Two densities compared.
fn compare_case<C: Tried, W: Write>(
    alloc: Global,
    out: &mut W,
    numbers: &mut Numbers,
    rooms: Rooms,
) -> Result<(), CaseError> {
    let first = DensityLine::<C>::read(alloc, numbers)?;
    let second = DensityLine::<C>::read(alloc, numbers)?;
    let first = first.density().map_err(CaseError::First)?;
    let second = second.density().map_err(CaseError::Second)?;
    let m = first.k().max(second.k());
    let mut strips = JudgeStrips::<C>::new(alloc, rooms, first.q(), m)?;
    let found = compare(&first, &second, &mut strips.crossings, &mut strips.ring)?.found();
    strips.write_found(out, "agree", "differ", found)?;
    Ok(())
}

// The next ring under a rule.
fn next_case<W: Write>(
    alloc: Global,
    out: &mut W,
    numbers: &mut Numbers,
    rooms: Rooms,
) -> Result<(), CaseError> {
    let rule = RuleLine::read(alloc, numbers)?;
    let ring = numbers.letters(alloc)?;
    let rule = rule.rule().map_err(CaseError::First)?;
    let mut strip = vec![in alloc; MARK; rooms.ring]?;
    next_ring(&rule, &ring, &mut strip)?;
    let (next, others) = strip.split_at(ring.len().min(strip.len()));
    let next = ShownLetters { letters: next };
    write!(out, "next {next}")?;
    write_end::<Voices, W>(out, &[], others)?;
    Ok(())
}

// The total of a ring under a density.
fn total_case<C: Tried, W: Write>(
    alloc: Global,
    out: &mut W,
    numbers: &mut Numbers,
) -> Result<(), CaseError> {
    let density = DensityLine::<C>::read(alloc, numbers)?;
    let ring = numbers.letters(alloc)?;
    let density = density.density().map_err(CaseError::First)?;
    let sum: C = total(&density, &ring)?;
    let word = sum.word();
    writeln!(out, "total {word}")?;
    Ok(())
}

fn case_as<C: Tried, W: Write>(
    alloc: Global,
    out: &mut W,
    numbers: &mut Numbers,
    call: CaseCall,
    rooms: Rooms,
) -> Result<(), CaseError> {
    match call {
        CaseCall::Judge => judge_case::<C, W>(alloc, out, numbers, rooms),
        CaseCall::Compare => compare_case::<C, W>(alloc, out, numbers, rooms),
        CaseCall::NextRing => next_case(alloc, out, numbers, rooms),
        CaseCall::Total => total_case::<C, W>(alloc, out, numbers),
    }
}

// Makes the call of a line and prints its result, if it has one of its own.
fn case<W: Write>(alloc: Global, out: &mut W, numbers: &mut Numbers) -> Result<(), CaseError> {
    let call = CaseCall::from(numbers.count());
    let kind = ChargeKind::try_from(numbers.plain()).unwrap_or(ChargeKind::Both);
    let rooms = Rooms {
        crossings: numbers.count(),
        ring: numbers.count(),
    };
    by_kind!(kind, case_as::<_, W>(alloc, out, numbers, call, rooms))
}

// Makes the call of a line and prints its result.
pub(crate) fn write_case<W: Write>(
    alloc: Global,
    out: &mut W,
    numbers: &mut Numbers,
) -> io::Result<()> {
    match case(alloc, out, numbers) {
        Ok(()) => Ok(()),
        Err(CaseError::First(fault)) => write_fault(out, "first", fault),
        Err(CaseError::Second(fault)) => write_fault(out, "second", fault),
        Err(CaseError::Refused(fault)) => write_fault(out, "refused", fault),
        Err(CaseError::Io(error)) => Err(error),
    }
}
