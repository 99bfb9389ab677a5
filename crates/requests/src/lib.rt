// The marks of the interrupt lines, and what is counted of each line.
#![tactic(auto)]

mod requests;
mod tally;

pub use requests::Requests;
pub use tally::Tally;
