// A register with the flags, or A with a cell, changed by a function that is passed in.
// Registers and board are two parameters: `&` and `&mut` say which of them a function changes.
ghost use Rattle.std.specs.Prelude.{◌≡◌};
ghost use Rattle.arithmetic.specs.Changes.{CellTurned, RegisterChanged};
ghost use Rattle.machine.specs.Model.{reach};

use board::Board;
use machine::WordRegister;
use operands::get_word;
use registers::bank::ByteRegister;
use registers::file::Registers;
use registers::flags::Flags;

pub(crate) fn change_register<F: FnOnce(u8, &mut Flags) -> u8>(
    registers: &mut Registers,
    register: ByteRegister,
    change: F,
)
    requires { F.IsAlwaysCallable change }
    ensures { RegisterChanged F.FnOnce change register registers.old registers.new }
{
    let value = change(registers.main.get(register), &mut registers.flags);
    registers.main.set(register, value);
}

/// RLD and RRD: the digits of A and of the cell at HL. Its clauses are not one `Acts`, which is for an operation that is known.
pub(crate) fn turn_cell<B: Board, F: FnOnce(u8, &mut u8) -> u8>(
    registers: &mut Registers,
    board: &mut B,
    turn: F,
)
    requires { F.IsAlwaysCallable turn }
    ensures after { CellTurned F.FnOnce turn (reach registers.old (B.Board.cells board.old)) (reach registers.new (B.Board.cells board.new)) }
    ensures keeps { B.Board.rest board.new ≡ B.Board.rest board.old }
{
    let address = get_word(registers, WordRegister::Hl);
    let cell = turn(board.read(address), &mut registers.main.a);
    board.write(address, cell);
}
