// A script as commands.
ghost use Rattle.std.specs.Prelude.{◌≡◌, Some, Err, IfErr, map, vec_items};
ghost use Rattle.console.specs.Results.{value_as, SameUnless};
ghost use Rattle.cli.specs.Commands.{command_meant, some_command_meant, line_command};
ghost use Rattle.cli.specs.Scripts.{numbered_of, at_line, script, wanted_text, script_sentence};
ghost use Rattle.cli.specs.declared.script.ScriptError.TheVariants.{Memory};

use crate::command::Command;
use crate::line::{MOST_STEPS, Wanted, read_line};
use crate::text_lines::{NumberedLine, TextLines};
use std::alloc::Global;
use std::error::Error;
use std::fmt;

/// Why a script is not played. Its text is one sentence.
#[derive(Clone, Copy, PartialEq, Eq, Debug)]
pub enum ScriptError {
    /// There is not enough memory.
    Memory,
    /// A line is no command.
    Line {
        /// The line, counted from 1. Lines without words count too.
        line: usize,
        /// What it should have.
        wanted: Wanted,
    },
}

// The command that a numbered line is, unless it has no words.
fn command_at(line: NumberedLine<'_>) -> Result<Option<Command<'_>>, ScriptError>
    ensures { value_as some_command_meant result
        ≡ at_line (numbered_of line.entry) (line_command line.entry.text.now) }
{
    match read_line(line.text) {
        Ok(command) => Ok(command),
        Err(wanted) => Err(ScriptError::Line {
            line: line.number,
            wanted,
        }),
    }
}

/// The commands of a script, one for each line that has words. Refuses a script by its first line that is no command,
/// even where there is no memory.
pub fn read_script(alloc: Global, text: &[u8]) -> Result<Vec<Command<'_>>, ScriptError>
    ensures commands { SameUnless Memory
        (value_as (λ v. map command_meant (vec_items v)) result) (script text.now) }
    ensures wrong { IfErr (script text.now)
        (λ e. value_as (λ v. map command_meant (vec_items v)) result ≡ Err e) }
{
    let mut commands = Vec::new(alloc);
    let mut full = false;
    for line in (TextLines { passed: 0, text }) {
        if let Some(command) = command_at(line)? {
            full = full || commands.push(command).is_err();
        }
    }
    if full {
        return Err(ScriptError::Memory);
    }
    Ok(commands)
}

impl fmt::Display for Wanted {
    ghost output = { λ w. Some (wanted_text w) };

    fn fmt<W: fmt::Write>(&self, f: &mut fmt::Formatter<W>) -> fmt::Result {
        match self {
            Wanted::Verb => f.write_str("open, step, touch, read, arc, meters or close"),
            Wanted::Letters => f.write_str("a ring as digits"),
            Wanted::Site => f.write_str("a site"),
            Wanted::Letter => f.write_str("a letter"),
            Wanted::Length => f.write_str("a number of sites"),
            Wanted::Steps => f.write_str("a number of steps"),
            Wanted::FewerSteps => write!(f, "at most {MOST_STEPS} steps"),
            Wanted::LineEnd => f.write_str("the end of the line"),
        }
    }
}

impl fmt::Display for ScriptError {
    ghost output = { λ e. Some (script_sentence e) };

    fn fmt<W: fmt::Write>(&self, f: &mut fmt::Formatter<W>) -> fmt::Result {
        match self {
            ScriptError::Memory => f.write_str("There is not enough memory."),
            ScriptError::Line { line, wanted } => write!(f, "Line {line}: expected {wanted}."),
        }
    }
}

impl Error for ScriptError {}
