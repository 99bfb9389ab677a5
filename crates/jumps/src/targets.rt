// Jumps and returns.
// Registers and board are two parameters: `&` and `&mut` say which of them a function changes.
ghost use Rattle.std.specs.Prelude.{◌≡◌, min};
ghost use Rattle.machine.specs.Control.{jumped_to_word, jumped_by_register, jumped_by, jumped_by_nine, returned, returned_skipping, returned_from_interrupt};

use alu::extend;
use board::Board;
use machine::WordRegister;
use operands::{data_byte, get_word, read_data_word, read_word};
use registers::file::Registers;
use registers::flags::Flags;

/// JMP word.
pub(crate) fn jump<B: Board>(registers: &mut Registers, board: &B)
    ensures { registers.new ≡ jumped_to_word (B.Board.cells board.now) registers.old }
{
    registers.pc = read_data_word(registers, board);
}

/// JB and JEA.
pub(crate) fn jump_by(registers: &mut Registers, which: WordRegister)
    ensures { registers.new ≡ jumped_by_register which registers.old }
{
    registers.pc = get_word(registers, which);
}

/// JR, by an offset of six bits, and JRE, by one of nine.
pub(crate) fn jump_relative<const BITS: u32>(registers: &mut Registers, offset: u16)
    ensures { registers.new ≡ jumped_by (min BITS 16) offset registers.old }
{
    registers.pc = registers.pc.wrapping_add_signed(extend::<BITS>(offset));
}

/// JRE, with the ninth bit of its offset.
pub(crate) fn jump_extended<B: Board>(registers: &mut Registers, board: &B, ninth: u8)
    ensures { registers.new ≡ jumped_by_nine ninth (B.Board.cells board.now) registers.old }
{
    let offset = u16::from_be_bytes([ninth, data_byte(registers, board)]);
    jump_relative::<9>(registers, offset);
}

/// RET.
pub(crate) fn return_from_call<B: Board>(registers: &mut Registers, board: &B)
    ensures { registers.new ≡ returned (B.Board.cells board.now) registers.old }
{
    registers.pc = read_word(board, registers.sp);
    registers.sp = registers.sp.wrapping_add(2);
}

/// RETS.
pub(crate) fn return_and_skip<B: Board>(registers: &mut Registers, board: &B)
    ensures { registers.new ≡ returned_skipping (B.Board.cells board.now) registers.old }
{
    return_from_call(registers, board);
    registers.flags.skip = true;
}

/// RETI.
pub(crate) fn return_from_interrupt<B: Board>(registers: &mut Registers, board: &B)
    ensures { registers.new ≡ returned_from_interrupt (B.Board.cells board.now) registers.old }
{
    registers.pc = read_word(board, registers.sp);
    registers.flags = Flags::from(board.read(registers.sp.wrapping_add(2)));
    registers.sp = registers.sp.wrapping_add(3);
}
