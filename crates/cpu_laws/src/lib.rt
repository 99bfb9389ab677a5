// The laws of the stack and of skips, each beside what drives a machine through it: a call and its return, a push and its pop, an interrupt and its return, and a step.
#![tactic(auto)]

mod calls;
mod interrupts;
mod pairs;
mod skips;
mod widths;

pub use calls::call_and_return;
pub use interrupts::enter_and_return;
pub use pairs::push_and_pop;
pub use skips::step_over;
