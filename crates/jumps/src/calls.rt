// Calls, and the software interrupt.
// Registers and board are two parameters: `&` and `&mut` say which of them a function changes.
ghost use Rattle.std.specs.Prelude.{◌≡◌};
ghost use Rattle.machine.specs.Effects.{Acts};
ghost use Rattle.machine.specs.Control.{called, called_to_word, called_fixed, called_by_bc, called_by_table, soft_interrupted};

use board::Board;
use machine::WordRegister;
use operands::{data_byte, get_word, push_status, push_word, read_data_word, read_word};
use registers::file::Registers;
use registers::flags::Flags;

/// Where CALF's addresses begin.
const FIXED_CALLS: u16 = 0x0800;

/// Where CALT's table begins.
const CALL_TABLE: u16 = 0x0080;

/// Where SOFTI goes.
const SOFT_VECTOR: u16 = 0x0060;

fn call_to<B: Board>(registers: &mut Registers, board: &mut B, target: u16)
    ensures { Acts B.Board (called target) (registers.old, board.old) (registers.new, board.new) }
{
    push_word(board, registers.sp, registers.pc);
    registers.sp = registers.sp.wrapping_sub(2);
    registers.pc = target;
}

/// CALL word.
pub(crate) fn call<B: Board>(registers: &mut Registers, board: &mut B)
    ensures { Acts B.Board called_to_word (registers.old, board.old) (registers.new, board.new) }
{
    let target = read_data_word(registers, board);
    call_to(registers, board, target);
}

/// CALB.
pub(crate) fn call_by_bc<B: Board>(registers: &mut Registers, board: &mut B)
    ensures { Acts B.Board called_by_bc (registers.old, board.old) (registers.new, board.new) }
{
    let target = get_word(registers, WordRegister::Bc);
    call_to(registers, board, target);
}

/// CALF.
pub(crate) fn call_fixed<B: Board>(registers: &mut Registers, board: &mut B, high: u8)
    ensures { Acts B.Board (called_fixed high) (registers.old, board.old) (registers.new, board.new) }
{
    let offset = u16::from_be_bytes([high, data_byte(registers, board)]);
    call_to(registers, board, FIXED_CALLS.wrapping_add(offset));
}

/// CALT: the table is read after the push.
pub(crate) fn call_by_table<B: Board>(registers: &mut Registers, board: &mut B, place: u8)
    ensures { Acts B.Board (called_by_table place) (registers.old, board.old) (registers.new, board.new) }
{
    push_word(board, registers.sp, registers.pc);
    registers.sp = registers.sp.wrapping_sub(2);
    registers.pc = read_word(board, CALL_TABLE + 2 * u16::from(place));
}

/// SOFTI: PSW goes to the stack first, as it was before the instruction.
pub(crate) fn interrupt_softly<B: Board>(registers: &mut Registers, board: &mut B, before: Flags)
    ensures { Acts B.Board (soft_interrupted before) (registers.old, board.old) (registers.new, board.new) }
{
    push_status(board, registers.sp, u8::from(before), registers.pc);
    registers.sp = registers.sp.wrapping_sub(3);
    registers.pc = SOFT_VECTOR;
}
