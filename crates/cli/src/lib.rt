// The command line as text: what its words and the lines of a script ask, and what is answered. Assumes nothing.
#![tactic(auto)]

mod command;
mod count;
mod help;
mod line;
mod outcome;
mod reply;
mod request;
mod script;
mod shown;
mod subcommand;
mod text_lines;
mod told;
mod usage;
mod verb;

pub use command::{Command, RingDigits, Verb};
pub use console::Named;
pub use help::USAGE;
pub use line::{MOST_STEPS, Wanted, read_line};
pub use outcome::Outcome;
pub use reply::{Reply, ReplyText, RingRow};
pub use request::{Request, file_name, read_arguments};
pub use script::{ScriptError, read_script};
pub use shown::ShownArgument;
pub use subcommand::Subcommand;
pub use told::{BreaksText, RefusalText, WrittenText};
pub use usage::{Operand, UsageError};
