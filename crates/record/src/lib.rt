// The records of a session: their kinds, their reader and their writer.
#![tactic(auto)]

pub mod fault;
pub mod kind;
pub mod read;
pub mod types;
pub mod write;
