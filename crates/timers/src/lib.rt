// The timers, which stand before any panel and are a panel again.
#![tactic(auto)]

mod front;
mod pace;
mod pair;
mod register;
mod timer;
mod whole;

pub use front::Timers;
pub use whole::timers_answers;
