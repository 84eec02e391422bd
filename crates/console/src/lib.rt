// The text form of a preset: a page that is written, and a page that is read. Assumes nothing.
#![tactic(auto)]

mod cutting;
mod encode;
mod error;
mod failure;
mod item;
mod kind;
mod names;
mod number;
mod outline;
mod page_part;
mod parsed_page;
mod part_lines;
mod place;
mod reader;
mod row;
mod show;
mod writer;

pub use cutting::{Class, LineWords, Split, cut, is_text};
pub use encode::{EncodeError, encode_page};
pub use error::{Expected, TextError};
pub use failure::ShowError;
pub use item::EntryWord;
pub use kind::{kind_name, kind_named};
pub use names::{Named, find_named};
pub use number::{NUMBER_END, read_number};
pub use page_part::PagePart;
pub use parsed_page::ParsedPage;
pub use part_lines::{PartLines, line_of_refusal};
pub use reader::parse;
pub use show::show_preset;
pub use writer::page;
