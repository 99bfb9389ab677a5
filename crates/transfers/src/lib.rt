// Transfers between registers and memory.
#![tactic(auto)]

mod bytes;
mod choice;
mod exchange;
mod named;
mod overlay;
mod word_places;
mod words;

pub use choice::transfer;
