// The choice of a transfer.
// Registers and board are two parameters: `&` and `&mut` say which of them a function changes.
ghost use Rattle.std.specs.Prelude.{◌≡◌};
ghost use Rattle.machine.specs.Effects.{Acts};
ghost use Rattle.machine.specs.Instructions.{transferred};

use crate::bytes::{
    load_direct, load_immediate, load_indirect, load_working, move_block, move_from_r1, move_to_r1,
    store_direct, store_indirect, store_indirect_immediate, store_working, store_working_immediate,
};
use crate::exchange::{exchange_b_to_l, exchange_h_l, exchange_v_a_ea};
use crate::words::{
    load_ea, load_from_table, load_word, load_word_immediate, move_from_ea, move_to_ea, pop, push,
    store_ea, store_word,
};
use board::Board;
use isa::Transfer;
use registers::file::Registers;
use registers::flags::Flags;

/// Executes a transfer, with the flags as they were before the instruction.
pub fn transfer<B: Board>(
    registers: &mut Registers,
    board: &mut B,
    instruction: Transfer,
    before: Flags,
)
    ensures { Acts B.Board (transferred before instruction) (registers.old, board.old) (registers.new, board.new) }
{
    match instruction {
        Transfer::MovToR1(r1) => move_to_r1(registers, r1),
        Transfer::MovFromR1(r1) => move_from_r1(registers, r1),
        Transfer::MovLoad(r) => load_direct(registers, board, r),
        Transfer::MovStore(r) => store_direct(registers, board, r),
        Transfer::Mvi(r) => load_immediate(registers, board, r, before),
        Transfer::Mviw => store_working_immediate(registers, board),
        Transfer::Mvix(rp3) => store_indirect_immediate(registers, board, rp3.into()),
        Transfer::Staw => store_working(registers, board),
        Transfer::Ldaw => load_working(registers, board),
        Transfer::Stax(place) => store_indirect(registers, board, place),
        Transfer::Ldax(place) => load_indirect(registers, board, place),
        Transfer::Exx => exchange_b_to_l(registers),
        Transfer::Exa => exchange_v_a_ea(registers),
        Transfer::Exh => exchange_h_l(registers),
        Transfer::Block => move_block(registers, board),
        Transfer::DmovFromEa(rp3) => move_from_ea(registers, rp3.into()),
        Transfer::DmovToEa(rp3) => move_to_ea(registers, rp3.into()),
        Transfer::StoreRp(rp) => store_word(registers, board, rp.into()),
        Transfer::LoadRp(rp) => load_word(registers, board, rp.into()),
        Transfer::Steax(place) => store_ea(registers, board, place),
        Transfer::Ldeax(place) => load_ea(registers, board, place),
        Transfer::Push(rp1) => push(registers, board, rp1.into()),
        Transfer::Pop(rp1) => pop(registers, board, rp1.into()),
        Transfer::Lxi(rp2) => load_word_immediate(registers, board, rp2.into(), before),
        Transfer::Table => load_from_table(registers, board),
    }
}
