// The byte format of presets: numbers, and presets made of numbers. Assumes nothing.
//
// A preset is read and written over strips that the caller lends, since nothing here is on the heap. They come one by
// one and as slices, since each may have any length, and make no struct. A refusal leaves every strip as it was:
// everything is checked first, and written after. A refusal has a stop code and a place; where bytes are read, the
// place is an index in the whole input, and where a preset is written, an index of a letter or an entry.
#![tactic(auto)]

mod entry;
mod header;
mod input;
mod item_limits;
mod items;
mod letter;
mod loaded;
mod number;
mod preset_strips;
mod reader;
mod sent;
mod writer;

pub use charge;
pub use entry::Entry;
pub use header::Header;
pub use loaded::Loaded;
pub use number::{MOST_NUMBER, read_number};
pub use preset_strips::PresetStrips;
pub use reader::{STRIP, read_preset, read_whole};
pub use sent::Sent;
pub use writer::write_preset;
