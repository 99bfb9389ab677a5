// The places in memory that rpa2 names, and what their use makes of the pairs.
// Registers and board are two parameters: `&` and `&mut` say which of them a function changes.
ghost use Rattle.std.specs.Prelude.{◌≡◌};
ghost use Rattle.machine.specs.Words.{past, back};
ghost use Rattle.machine.specs.Operands.{word_in, with_word, rpa2_place, rpa2_used};

use crate::memory::data_byte;
use crate::words::{get_word, set_word};
use board::Board;
use isa::Rpa2;
use machine::WordRegister;
use registers::file::Registers;

pub fn rpa2_address<B: Board>(registers: &Registers, board: &B, place: Rpa2) -> u16
    ensures { result ≡ rpa2_place place (B.Board.cells board.now) registers.now }
{
    let de = get_word(registers, WordRegister::De);
    let hl = get_word(registers, WordRegister::Hl);
    match place {
        Rpa2::Bc => get_word(registers, WordRegister::Bc),
        Rpa2::De | Rpa2::DeUp | Rpa2::DeDown => de,
        Rpa2::Hl | Rpa2::HlUp | Rpa2::HlDown => hl,
        Rpa2::DeByte => de.wrapping_add(u16::from(data_byte(registers, board))),
        Rpa2::HlA => hl.wrapping_add(u16::from(registers.main.a)),
        Rpa2::HlB => hl.wrapping_add(u16::from(registers.main.b)),
        Rpa2::HlEa => hl.wrapping_add(registers.ea),
        Rpa2::HlByte => hl.wrapping_add(u16::from(data_byte(registers, board))),
    }
}

pub fn use_rpa2(registers: &mut Registers, place: Rpa2)
    ensures { registers.new ≡ rpa2_used place registers.old }
{
    match place {
        Rpa2::DeUp => step_up(registers, WordRegister::De, 1),
        Rpa2::HlUp => step_up(registers, WordRegister::Hl, 1),
        Rpa2::DeDown => step_down(registers, WordRegister::De),
        Rpa2::HlDown => step_down(registers, WordRegister::Hl),
        Rpa2::Bc | Rpa2::De | Rpa2::Hl | Rpa2::DeByte => {}
        Rpa2::HlA | Rpa2::HlB | Rpa2::HlEa | Rpa2::HlByte => {}
    }
}

/// A word goes up. Going down is a function of its own: by 65,535 this one would do it, and nobody would read it so.
pub fn step_up(registers: &mut Registers, which: WordRegister, by: u16)
    ensures { registers.new ≡ with_word which (past (word_in which registers.old) by) registers.old }
{
    let word = get_word(registers, which);
    set_word(registers, which, word.wrapping_add(by));
}

/// A word goes down by one.
pub fn step_down(registers: &mut Registers, which: WordRegister)
    ensures { registers.new ≡ with_word which (back (word_in which registers.old) 1) registers.old }
{
    let word = get_word(registers, which);
    set_word(registers, which, word.wrapping_sub(1));
}
