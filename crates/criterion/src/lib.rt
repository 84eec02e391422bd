// The criterion: whether the label of each word is what crosses in less what crosses out, the first word of which it
// is not, and the ring that shows it. Assumes nothing.
#![tactic(auto)]

mod crossings;
mod label;
mod search;
mod shown;

pub use crossings::crossing;
pub use label::Label;
pub use search::{Failure, examine};
pub use shown::MOST_SHOWN;
