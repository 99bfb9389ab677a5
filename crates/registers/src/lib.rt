// The registers of the processor, its core's state, and the core on the bench.
#![tactic(auto)]

pub mod bank;
pub mod bench;
pub mod fault;
pub mod file;
pub mod flags;
