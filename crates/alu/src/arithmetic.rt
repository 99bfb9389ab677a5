// An operation on two operands.
ghost use Rattle.std.specs.Prelude.{◌≡◌, ◌<◌};
ghost use Rattle.alu.specs.Operations.{formed, operated, flagged};
ghost use Rattle.alu.specs.Sums.{carried};
ghost use Rattle.alu.specs.Widths.{whole};

use crate::operation::Operation;
use crate::sums::Operands;
use crate::width::Width;
use registers::flags::Flags;

/// Forms an operation's value of the low bits of its operands. Sets Z, and HC and CY unless it is bitwise; SK tells whether it skips.
pub fn operate(operation: Operation, width: Width, a: u16, b: u16, flags: &mut Flags) -> u16
    ensures value { result ≡ (operated operation width a b flags.old).value }
    ensures bound { result < whole width }
    ensures after { flags.new ≡ flagged operation (operated operation width a b flags.old) flags.old }
{
    let value = form(operation, Operands::low(width, a, b), flags);
    flags.zero = value == 0;
    flags.skip = operation.skips(flags.zero, flags.carry);
    value
}

/// An operation on two bytes: the one above at their width, in their type.
pub fn operate_byte(operation: Operation, a: u8, b: u8, flags: &mut Flags) -> u8
    ensures value { result ≡ (operated operation Width.Byte a b flags.old).value }
    ensures after { flags.new ≡ flagged operation (operated operation Width.Byte a b flags.old) flags.old }
{
    operate(operation, Width::Byte, u16::from(a), u16::from(b), flags) as u8
}

// What an operation forms; a bitwise one leaves HC and CY.
#[tactic(auto, using(std::proofs::lemmas::Nat::or_lt, std::proofs::lemmas::Nat::xor_lt))]
fn form(operation: Operation, operands: Operands, flags: &mut Flags) -> u16
    ensures value { result ≡ (formed operation operands.width operands.a operands.b flags.old).value }
    ensures bound { result < whole operands.width }
    ensures after { flags.new ≡ carried (formed operation operands.width operands.a operands.b flags.old) flags.old }
{
    match operation {
        Operation::And | Operation::On | Operation::Off => operands.a & operands.b,
        Operation::Xor => operands.a ^ operands.b,
        Operation::Or => operands.a | operands.b,
        Operation::Add | Operation::AddSkipNoCarry => operands.add(false, flags),
        Operation::AddWithCarry => operands.add(flags.carry, flags),
        Operation::Sub
        | Operation::SubSkipNoBorrow
        | Operation::Less
        | Operation::NotEqual
        | Operation::Equal => operands.subtract(false, flags),
        Operation::Greater => operands.subtract(true, flags),
        Operation::SubWithCarry => operands.subtract(flags.carry, flags),
    }
}
