// Worked examples: small cases whose answers are known, proved, or run against the crates that they speak of.
#![tactic(auto)]

#[cfg(test)]
mod charges;
mod examples;
#[cfg(test)]
mod judging;
#[cfg(test)]
mod large;
#[cfg(test)]
mod number;
#[cfg(test)]
mod playing;
#[cfg(test)]
mod reading;
#[cfg(test)]
mod text;
#[cfg(test)]
mod wide;
#[cfg(test)]
mod writing;

pub use examples::worked_examples;
#[cfg(test)]
use fault::Fault;

// A refusal by its code and its place.
#[cfg(test)]
fn numbers(fault: Fault) -> (u8, usize) {
    (fault.stop.code(), fault.place)
}
