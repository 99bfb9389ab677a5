// Registers and working cells counted up or down by one.
// Registers and board are two parameters: `&` and `&mut` say which of them a function changes.
ghost use Rattle.std.specs.Prelude.{◌≡◌};
ghost use Rattle.alu.specs.Counting.{counted_by};
ghost use Rattle.machine.specs.Effects.{Acts};
ghost use Rattle.machine.specs.Arithmetic.{register_counted, working_counted};

use crate::changes::change_register;
use alu::{Count, count_byte};
use board::Board;
use operands::{data_byte, working_address};
use registers::bank::ByteRegister;
use registers::file::Registers;

/// INR and DCR r2.
pub(crate) fn count_register(registers: &mut Registers, count: Count, register: ByteRegister)
    ensures { registers.new ≡ register_counted (counted_by count) register registers.old }
{
    change_register(
        registers,
        register,
        |byte, flags| count_byte(count, byte, flags),
    );
}

/// INRW and DCRW wa.
pub(crate) fn count_working<B: Board>(registers: &mut Registers, board: &mut B, count: Count)
    ensures { Acts B.Board (working_counted (counted_by count)) (registers.old, board.old) (registers.new, board.new) }
{
    let address = working_address(registers, data_byte(registers, board));
    let value = count_byte(count, board.read(address), &mut registers.flags);
    board.write(address, value);
}
