// What a page holds.
use crate::part_lines::PartLines;
use charge::ChargeKind;
use preset::{Entry, Header};

/// The parts of a preset as a page has them, and the lines that they stand on. Neither the ranges of the numbers nor
/// the counts of letters and entries are checked.
#[derive(PartialEq, Debug, Drop)]
pub struct ParsedPage {
    /// The kind of charge.
    pub kind: ChargeKind,
    /// The number of the kind, and the sizes.
    pub header: Header,
    /// The letters of the rule.
    pub letters: Vec<u8>,
    /// The entries of the density.
    pub entries: Vec<Entry>,
    /// The lines of the parts.
    pub lines: PartLines,
}
