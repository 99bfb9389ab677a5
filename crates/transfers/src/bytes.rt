// Transfers of a byte.
// Registers and board are two parameters: `&` and `&mut` say which of them a function changes.
ghost use Rattle.std.specs.Prelude.{◌≡◌};
ghost use Rattle.machine.specs.Effects.{Acts, Writes};
ghost use Rattle.machine.specs.Transfer.{to_r1, from_r1, direct_loaded, direct_stored, immediate as byte_immediate, working_immediate, indirect_immediate, working_loaded, working_stored, indirect_loaded, indirect_stored, block_moved, block_step};

use crate::named::{get_r1, set_r1};
use crate::overlay::mark_load;
use board::Board;
use isa::{R1, Rpa2};
use machine::WordRegister;
use operands::{
    data_byte, data_bytes, get_word, read_data_word, rpa2_address, step_up, use_rpa2,
    working_address,
};
use registers::bank::ByteRegister;
use registers::file::Registers;
use registers::flags::Flags;

/// MOV r1,A.
pub(crate) fn move_to_r1(registers: &mut Registers, r1: R1)
    ensures { registers.new ≡ to_r1 r1 registers.old }
{
    let a = registers.main.a;
    set_r1(registers, r1, a);
}

/// MOV A,r1.
pub(crate) fn move_from_r1(registers: &mut Registers, r1: R1)
    ensures { registers.new ≡ from_r1 r1 registers.old }
{
    registers.main.a = get_r1(registers, r1);
}

/// MOV r,word.
pub(crate) fn load_direct<B: Board>(registers: &mut Registers, board: &B, register: ByteRegister)
    ensures { registers.new ≡ direct_loaded register (B.Board.cells board.now) registers.old }
{
    let byte = board.read(read_data_word(registers, board));
    registers.main.set(register, byte);
}

/// MOV word,r.
pub(crate) fn store_direct<B: Board>(registers: &Registers, board: &mut B, register: ByteRegister)
    ensures { Writes B.Board (direct_stored register registers.now) board.old board.new }
{
    let address = read_data_word(registers, board);
    board.write(address, registers.main.get(register));
}

/// MVI r,byte. A and L are overlaid: of several loads in a row only the first takes effect.
pub(crate) fn load_immediate<B: Board>(
    registers: &mut Registers,
    board: &B,
    register: ByteRegister,
    before: Flags,
)
    ensures { registers.new ≡ byte_immediate register before (B.Board.cells board.now) registers.old }
{
    let byte = data_byte(registers, board);
    match register {
        ByteRegister::A => {
            if !before.l1 {
                registers.main.a = byte;
            }
            mark_load(registers, true, false);
        }
        ByteRegister::L => {
            if !before.l0 {
                registers.main.l = byte;
            }
            mark_load(registers, false, true);
        }
        _ => registers.main.set(register, byte),
    }
}

/// MVIW wa,byte.
pub(crate) fn store_working_immediate<B: Board>(registers: &Registers, board: &mut B)
    ensures { Writes B.Board (working_immediate registers.now) board.old board.new }
{
    let [wa, byte] = data_bytes(registers, board);
    board.write(working_address(registers, wa), byte);
}

/// MVIX rpa1,byte.
pub(crate) fn store_indirect_immediate<B: Board>(
    registers: &Registers,
    board: &mut B,
    pair: WordRegister,
)
    ensures { Writes B.Board (indirect_immediate pair registers.now) board.old board.new }
{
    let byte = data_byte(registers, board);
    board.write(get_word(registers, pair), byte);
}

/// LDAW wa.
pub(crate) fn load_working<B: Board>(registers: &mut Registers, board: &B)
    ensures { registers.new ≡ working_loaded (B.Board.cells board.now) registers.old }
{
    let wa = data_byte(registers, board);
    registers.main.a = board.read(working_address(registers, wa));
}

/// STAW wa.
pub(crate) fn store_working<B: Board>(registers: &Registers, board: &mut B)
    ensures { Writes B.Board (working_stored registers.now) board.old board.new }
{
    let address = working_address(registers, data_byte(registers, board));
    board.write(address, registers.main.a);
}

/// LDAX rpa2.
pub(crate) fn load_indirect<B: Board>(registers: &mut Registers, board: &B, place: Rpa2)
    ensures { registers.new ≡ indirect_loaded place (B.Board.cells board.now) registers.old }
{
    registers.main.a = board.read(rpa2_address(registers, board, place));
    use_rpa2(registers, place);
}

/// STAX rpa2.
pub(crate) fn store_indirect<B: Board>(registers: &mut Registers, board: &mut B, place: Rpa2)
    ensures { Acts B.Board (indirect_stored place) (registers.old, board.old) (registers.new, board.new) }
{
    let address = rpa2_address(registers, board, place);
    board.write(address, registers.main.a);
    use_rpa2(registers, place);
}

/// BLOCK: one byte of it.
pub(crate) fn move_block<B: Board>(registers: &mut Registers, board: &mut B)
    ensures { Acts B.Board block_step (registers.old, board.old) (registers.new, board.new) }
{
    let byte = board.read(get_word(registers, WordRegister::Hl));
    board.write(get_word(registers, WordRegister::De), byte);
    advance_block(registers);
}

// PC stays on the instruction until C borrows.
fn advance_block(registers: &mut Registers)
    ensures { registers.new ≡ block_moved registers.old }
{
    let borrows = registers.main.c == 0;
    step_up(registers, WordRegister::De, 1);
    step_up(registers, WordRegister::Hl, 1);
    registers.main.c = registers.main.c.wrapping_sub(1);
    registers.flags.carry = borrows;
    if !borrows {
        registers.pc = registers.pc.wrapping_sub(1);
    }
}
