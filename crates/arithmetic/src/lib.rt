// Arithmetic, shifts and rotates on registers and memory.
#![tactic(auto)]

mod changes;
mod choice;
mod counting;
mod operations;
mod shifts;

pub use choice::compute;
