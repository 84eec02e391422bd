// The judge and the player for C: a static library of a few calls on numbers, bytes and structs of numbers. Assumes
// nothing of its caller but what a C type says. Nothing here is on the heap: strips are arrays on the stack. A strip
// that a call is lent comes as a slice of its own, since C hands over each by a pointer and a count. A refusal is a
// code and a place, and writes nothing; include/ringbench.h has the same calls for C.
#![tactic(auto)]

mod answers;
mod entries;
mod judge_charges;
mod judge_preset;
mod play_charges;
mod play_preset;
mod play_script;
mod read_preset;
mod script;

pub use answers::{JudgeAnswer, ReadAnswer, ScriptAnswer};
pub use judge_preset::ringbench_judge;
pub use play_preset::ringbench_play;
pub use read_preset::ringbench_read;
pub use script::ScriptCall;
