// A byte counted up or down by one, and negated.
ghost use Rattle.std.specs.Prelude.{◌≡◌};
ghost use Rattle.alu.specs.Counting.{counted_by, counted, negated};

use crate::sums::Operands;
use registers::flags::Flags;

#[derive(Clone, Copy, PartialEq, Eq, Debug)]
pub enum Count {
    /// INR and INRW.
    Up,
    /// DCR and DCRW.
    Down,
}

/// One more or one less than a byte. Sets Z, HC and CY; SK is the carry or borrow.
pub fn count_byte(count: Count, byte: u8, flags: &mut Flags) -> u8
    ensures value { result ≡ (counted_by count byte).value }
    ensures after { flags.new ≡ counted (counted_by count byte) flags.old }
{
    let operands = Operands::bytes(byte, 1);
    let value = match count {
        Count::Up => operands.add(false, flags),
        Count::Down => operands.subtract(false, flags),
    };
    flags.zero = value == 0;
    flags.skip = flags.carry;
    value as u8
}

/// The two's complement of a byte. Sets no flag.
pub fn negate(byte: u8) -> u8
    ensures { result ≡ negated byte }
{
    byte.wrapping_neg()
}
