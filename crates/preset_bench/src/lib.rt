// Benches of presets: a preset that was read, drafted as a bench and judged. Assumes nothing.
#![tactic(auto)]

mod charges;
mod drafting;
mod judging;
mod sending;

pub use charges::fill_charges;
pub use drafting::draft;
pub use judging::judge;
pub use sending::sent_found;
