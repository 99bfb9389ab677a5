// What the operands of an instruction name, as the families of instructions share it: words, data bytes, places in memory, the stack.
#![tactic(auto)]

mod memory;
mod places;
mod words;

pub use memory::{
    data_byte, data_bytes, push_status, push_word, read_data_word, read_word, working_address,
};
pub use places::{rpa2_address, step_down, step_up, use_rpa2};
pub use words::{get_word, set_word};
