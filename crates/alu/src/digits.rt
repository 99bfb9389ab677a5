// Bytes as two digits: decimal adjust, and rotates of digits through a cell.
ghost use Rattle.std.specs.Prelude.{◌≡◌};
ghost use Rattle.alu.specs.Decimal.{high_correction, correction, adjusted, DecimalAddition};
ghost use Rattle.alu.specs.Digits.{high, low, digits};
ghost use Rattle.alu.specs.Sums.{marked};

use crate::sums::Operands;
use registers::flags::Flags;

/// Makes the sum of two packed decimal bytes, with the flags that its addition set, packed decimal again. Sets Z, HC and CY.
#[tactic(auto, using(crate::proofs::Addition::decimal_addition))]
pub fn decimal_adjust(a: u8, flags: &mut Flags) -> u8
    ensures value { result ≡ (adjusted a flags.old).value }
    ensures after { flags.new ≡ marked (adjusted a flags.old) flags.old.skip flags.old }
    ensures addition { DecimalAddition }
{
    let correction = correct(a, flags.half, flags.carry);
    let value = Operands::bytes(a, correction).add(false, flags);
    flags.zero = value == 0;
    flags.carry = 0x60 <= correction;
    value as u8
}

// What is added to adjust a sum.
fn correct(a: u8, half: bool, carry: bool) -> u8
    ensures { result ≡ correction a half carry }
{
    if half {
        0x06 + correct_high(9, a / 16, carry)
    } else if 9 < a % 16 {
        0x06 + correct_high(8, a / 16, carry)
    } else {
        correct_high(9, a / 16, carry)
    }
}

// What is added to adjust the high digit.
fn correct_high(limit: u8, digit: u8, carry: bool) -> u8
    ensures { result ≡ high_correction limit digit carry }
{
    if carry || limit < digit { 0x60 } else { 0x00 }
}

// The two rotates of digits differ in where each digit goes, and no constant tells them apart.
/// Rotates three digits to the left, A's low digit and the two of a cell: answers the cell.
pub fn rotate_digits_left(a: &mut u8, cell: u8) -> u8
    ensures value { result ≡ digits (low cell) (low a.old) }
    ensures after { a.new ≡ digits (high a.old) (high cell) }
{
    let digit = *a % 16;
    *a = *a / 16 * 16 + cell / 16;
    cell % 16 * 16 + digit
}

/// Rotates three digits to the right, A's low digit and the two of a cell: answers the cell.
pub fn rotate_digits_right(a: &mut u8, cell: u8) -> u8
    ensures value { result ≡ digits (low a.old) (high cell) }
    ensures after { a.new ≡ digits (high a.old) (low cell) }
{
    let digit = *a % 16;
    *a = *a / 16 * 16 + cell % 16;
    digit * 16 + cell / 16
}
