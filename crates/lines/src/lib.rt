// The interrupt lines 0 to 10, sets of them, and their levels.
#![tactic(auto)]

mod level;
mod line;
mod set;

pub use level::Level;
pub use line::{Line, NoSuchLine};
pub use set::Lines;
