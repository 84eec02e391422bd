// The bench: labels of rules and densities, the judge and the comparison. Assumes nothing.
//
// The strips that a call is lent, for crossings and for a ring, make no struct here or in the crates below: clauses
// would reach each of them through two references. Clauses of the crate's own functions may name the private fields of
// what they take, such as the sizes that a label keeps; those of public functions name none.
#![tactic(auto)]

mod comparing;
mod holding;
mod judging;
mod next_words;
mod rule_label;
mod sizes;
mod state;
mod subword;
mod two_label;

pub use comparing::compare;
pub use holding::SiteCrossings;
pub use judging::Judged;
pub use next_words::NextWords;
pub use rule_label::RuleLabel;
pub use state::{BenchParts, Break, Breaking, Comparison, Draft, Holding, Refused, Verdict};
pub use two_label::TwoLabel;
