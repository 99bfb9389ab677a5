// One step of the processor: an interrupt's entry, an idle, a skip or an execution, and the states that it counts.
#![tactic(auto)]

mod codes;
mod entry;
mod pick;
mod steps;

pub use codes::UndefinedCode;
pub use steps::step;
