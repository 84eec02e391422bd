// What is printed.
use crate::trouble::Trouble;
use cli::{Outcome, RefusalText};
use console::ShowError;
use fault::Fault;
use report::ReportLine;
use std::fmt;

// Prints a text in one piece, so that none of it comes after a failure.
pub(crate) fn print_text<'a>(
    rt: &HostRuntime,
    text: impl fmt::Display + Drop,
) -> Result<(), Trouble<'a>> {
    let text = format!(in rt.alloc(); "{text}")?;
    print!(rt; "{text}")?;
    Ok(())
}

// Prints a refusal.
pub(crate) fn refuse<'a>(rt: &HostRuntime, fault: Fault) -> Result<Outcome, Trouble<'a>> {
    print_text(rt, RefusalText { fault })?;
    Ok(Outcome::Undone)
}

// Prints why a preset is not told of.
pub(crate) fn complain<'a>(rt: &HostRuntime, error: ShowError) -> Result<Outcome, Trouble<'a>> {
    match error {
        ShowError::Memory => Err(Trouble::Memory),
        ShowError::Refused(fault) => refuse(rt, fault),
    }
}

// Prints a line of a report, and tells whether it is good.
pub(crate) fn print_line<'a>(rt: &HostRuntime, line: ReportLine) -> Result<Outcome, Trouble<'a>> {
    let text = line.text;
    print_text(rt, format_args!("{text}\n"))?;
    Ok(Outcome::so(line.good))
}
