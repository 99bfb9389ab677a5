// The arithmetic of the processor: the values that it forms, and the flags that they set.
#![tactic(auto)]

mod arithmetic;
mod bits;
mod counting;
mod digits;
mod offsets;
mod operation;
mod products;
mod shifts;
mod sums;
mod width;

pub use arithmetic::{operate, operate_byte};
pub use counting::{Count, count_byte, negate};
pub use digits::{decimal_adjust, rotate_digits_left, rotate_digits_right};
pub use offsets::extend;
pub use operation::{NoSuchOperation, Operation};
pub use products::{divide, multiply};
pub use shifts::{Shift, shift_bits, shift_byte, shift_byte_and_skip};
pub use width::Width;
