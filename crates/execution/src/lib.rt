// Executing an instruction, by its family; special registers, tests and modes are handled here.
#![tactic(auto)]

mod choice;
mod control;
mod special;

pub use choice::execute;
