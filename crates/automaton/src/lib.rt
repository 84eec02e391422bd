// Cellular automata on rings: rules, densities, the next ring and the total of a ring. Assumes nothing.
#![tactic(auto)]

mod density;
mod lookup;
mod making;
mod pattern;
mod ring;
mod rule;
mod shown;
mod sum_rule;
mod table_density;
mod table_rule;
mod word_set;

pub use density::Density;
pub use pattern::PatternDensity;
pub use ring::{Ring, Span, next_ring, total};
pub use rule::Rule;
pub use shown::{ShownLetters, ShownWord};
pub use sum_rule::SumRule;
pub use table_density::TableDensity;
pub use table_rule::TableRule;
pub use word_set::WordSet;
