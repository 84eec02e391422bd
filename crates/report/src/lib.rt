// Verdicts on presets as text. Assumes nothing.
#![tactic(auto)]

mod charges;
mod compare;
mod comparing;
mod crossing;
mod judging;
mod report_line;
mod rows;
mod texts;
mod verdict;

pub use comparing::compare_line;
pub use crossing::crossings_page;
pub use judging::judge_line;
pub use report_line::ReportLine;
