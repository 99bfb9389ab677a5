// The instruction set: instructions, their codes, lengths and states.
#![tactic(auto)]

mod addressing;
mod codes;
mod costs;
mod decoding;
mod encoding;
mod instructions;
mod operands;
mod special;

pub use decoding::{Undefined, decode};
pub use encoding::Opcode;
pub use instructions::{Arithmetic, Control, Instruction, Jump, Special, Transfer};
pub use operands::{Flag, R1, R2, Rp, Rp1, Rp2, Rp3, Rpa2, Rpa3};
