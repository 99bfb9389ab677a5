// Plays sessions: records that load a memory and a bench core, and the listing of what came of them.
#![tactic(auto)]

pub mod fault;
mod listing;
mod load;
mod machine;
pub mod play;
pub mod printout;
mod sheet;
