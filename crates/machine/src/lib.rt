// The machine that instructions act on: a core with its board, its panel and its interrupt requests; and what every instruction makes of it.
#![tactic(auto)]

mod parts;
mod words;

pub use parts::Machine;
pub use words::WordRegister;
