// Jumps, calls and returns.
#![tactic(auto)]

mod calls;
mod choice;
mod targets;

pub use choice::direct;
