// The choice of a jump, a call or a return.
// Registers and board are two parameters: `&` and `&mut` say which of them a function changes.
ghost use Rattle.std.specs.Prelude.{◌≡◌};
ghost use Rattle.machine.specs.Effects.{Acts};
ghost use Rattle.machine.specs.Instructions.{directed};

use crate::calls::{call, call_by_bc, call_by_table, call_fixed, interrupt_softly};
use crate::targets::{
    jump, jump_by, jump_extended, jump_relative, return_and_skip, return_from_call,
    return_from_interrupt,
};
use board::Board;
use isa::Jump;
use machine::WordRegister;
use registers::file::Registers;
use registers::flags::Flags;

/// Executes a jump, a call or a return, with the flags as they were before the instruction.
pub fn direct<B: Board>(registers: &mut Registers, board: &mut B, instruction: Jump, before: Flags)
    ensures { Acts B.Board (directed before instruction) (registers.old, board.old) (registers.new, board.new) }
{
    match instruction {
        Jump::Jmp => jump(registers, board),
        Jump::Jb => jump_by(registers, WordRegister::Bc),
        Jump::Jr(offset) => jump_relative::<6>(registers, u16::from(offset)),
        Jump::JreForward => jump_extended(registers, board, 0),
        Jump::JreBackward => jump_extended(registers, board, 1),
        Jump::Jea => jump_by(registers, WordRegister::Ea),
        Jump::Call => call(registers, board),
        Jump::Calb => call_by_bc(registers, board),
        Jump::Calf(high) => call_fixed(registers, board, high),
        Jump::Calt(place) => call_by_table(registers, board, place),
        Jump::Softi => interrupt_softly(registers, board, before),
        Jump::Ret => return_from_call(registers, board),
        Jump::Rets => return_and_skip(registers, board),
        Jump::Reti => return_from_interrupt(registers, board),
    }
}
