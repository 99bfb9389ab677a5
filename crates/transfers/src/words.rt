// Transfers of a word.
// Registers and board are two parameters: `&` and `&mut` say which of them a function changes.
ghost use Rattle.std.specs.Prelude.{◌≡◌};
ghost use Rattle.machine.specs.Effects.{Acts, Writes};
ghost use Rattle.machine.specs.Transfer.{from_ea, to_ea, word_loaded, word_saved, ea_loaded, ea_stored, word_pushed, word_popped, word_immediate, from_table};

use crate::overlay::mark_load;
use crate::word_places::{rpa3_address, use_rpa3, write_word};
use board::Board;
use isa::Rpa3;
use machine::WordRegister;
use operands::{get_word, push_word, read_data_word, read_word, set_word};
use registers::file::Registers;
use registers::flags::Flags;

/// DMOV rp3,EA.
pub(crate) fn move_from_ea(registers: &mut Registers, pair: WordRegister)
    ensures { registers.new ≡ from_ea pair registers.old }
{
    let ea = registers.ea;
    set_word(registers, pair, ea);
}

/// DMOV EA,rp3.
pub(crate) fn move_to_ea(registers: &mut Registers, pair: WordRegister)
    ensures { registers.new ≡ to_ea pair registers.old }
{
    registers.ea = get_word(registers, pair);
}

/// LSPD, LBCD, LDED and LHLD word.
pub(crate) fn load_word<B: Board>(registers: &mut Registers, board: &B, pair: WordRegister)
    ensures { registers.new ≡ word_loaded pair (B.Board.cells board.now) registers.old }
{
    let word = read_word(board, read_data_word(registers, board));
    set_word(registers, pair, word);
}

/// SSPD, SBCD, SDED and SHLD word.
pub(crate) fn store_word<B: Board>(registers: &Registers, board: &mut B, pair: WordRegister)
    ensures { Writes B.Board (word_saved pair registers.now) board.old board.new }
{
    let address = read_data_word(registers, board);
    write_word(board, address, get_word(registers, pair));
}

/// LDEAX rpa3.
pub(crate) fn load_ea<B: Board>(registers: &mut Registers, board: &B, place: Rpa3)
    ensures { registers.new ≡ ea_loaded place (B.Board.cells board.now) registers.old }
{
    registers.ea = read_word(board, rpa3_address(registers, board, place));
    use_rpa3(registers, place);
}

/// STEAX rpa3.
pub(crate) fn store_ea<B: Board>(registers: &mut Registers, board: &mut B, place: Rpa3)
    ensures { Acts B.Board (ea_stored place) (registers.old, board.old) (registers.new, board.new) }
{
    let address = rpa3_address(registers, board, place);
    write_word(board, address, registers.ea);
    use_rpa3(registers, place);
}

/// PUSH rp1.
pub(crate) fn push<B: Board>(registers: &mut Registers, board: &mut B, pair: WordRegister)
    ensures { Acts B.Board (word_pushed pair) (registers.old, board.old) (registers.new, board.new) }
{
    push_word(board, registers.sp, get_word(registers, pair));
    registers.sp = registers.sp.wrapping_sub(2);
}

/// POP rp1.
pub(crate) fn pop<B: Board>(registers: &mut Registers, board: &B, pair: WordRegister)
    ensures { registers.new ≡ word_popped pair (B.Board.cells board.now) registers.old }
{
    let word = read_word(board, registers.sp);
    registers.sp = registers.sp.wrapping_add(2);
    set_word(registers, pair, word);
}

/// LXI rp2,word. HL is overlaid as L is by MVI.
pub(crate) fn load_word_immediate<B: Board>(
    registers: &mut Registers,
    board: &B,
    pair: WordRegister,
    before: Flags,
)
    ensures { registers.new ≡ word_immediate pair before (B.Board.cells board.now) registers.old }
{
    let word = read_data_word(registers, board);
    match pair {
        WordRegister::Hl => {
            if !before.l0 {
                set_word(registers, pair, word);
            }
            mark_load(registers, false, true);
        }
        _ => set_word(registers, pair, word),
    }
}

/// TABLE.
pub(crate) fn load_from_table<B: Board>(registers: &mut Registers, board: &B)
    ensures { registers.new ≡ from_table (B.Board.cells board.now) registers.old }
{
    let address = registers.pc.wrapping_add(1 + u16::from(registers.main.a));
    let word = read_word(board, address);
    set_word(registers, WordRegister::Bc, word);
}
