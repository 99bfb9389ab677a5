// The places in memory that rpa3 names, what their use makes of the pairs, and a word stored.
// Registers and board are two parameters: `&` and `&mut` say which of them a function changes.
ghost use Rattle.std.specs.Prelude.{◌≡◌};
ghost use Rattle.machine.specs.Effects.{Writes};
ghost use Rattle.machine.specs.Words.{word_stored};
ghost use Rattle.machine.specs.Operands.{rpa3_place, rpa3_used};

use board::Board;
use isa::Rpa3;
use machine::WordRegister;
use operands::{data_byte, get_word, step_up};
use registers::file::Registers;

// Not by way of rpa2: naming the addressing of a byte at the same place takes as many arms as finding the place.
pub(crate) fn rpa3_address<B: Board>(registers: &Registers, board: &B, place: Rpa3) -> u16
    ensures { result ≡ rpa3_place place (B.Board.cells board.now) registers.now }
{
    let de = get_word(registers, WordRegister::De);
    let hl = get_word(registers, WordRegister::Hl);
    match place {
        Rpa3::De | Rpa3::DeUpTwo => de,
        Rpa3::Hl | Rpa3::HlUpTwo => hl,
        Rpa3::DeByte => de.wrapping_add(u16::from(data_byte(registers, board))),
        Rpa3::HlA => hl.wrapping_add(u16::from(registers.main.a)),
        Rpa3::HlB => hl.wrapping_add(u16::from(registers.main.b)),
        Rpa3::HlEa => hl.wrapping_add(registers.ea),
        Rpa3::HlByte => hl.wrapping_add(u16::from(data_byte(registers, board))),
    }
}

pub(crate) fn use_rpa3(registers: &mut Registers, place: Rpa3)
    ensures { registers.new ≡ rpa3_used place registers.old }
{
    match place {
        Rpa3::DeUpTwo => step_up(registers, WordRegister::De, 2),
        Rpa3::HlUpTwo => step_up(registers, WordRegister::Hl, 2),
        Rpa3::De | Rpa3::Hl | Rpa3::DeByte | Rpa3::HlA => {}
        Rpa3::HlB | Rpa3::HlEa | Rpa3::HlByte => {}
    }
}

// The low byte is stored first.
pub(crate) fn write_word<B: Board>(board: &mut B, address: u16, word: u16)
    ensures { Writes B.Board (word_stored address word) board.old board.new }
{
    let [high, low] = word.to_be_bytes();
    board.write(address, low);
    board.write(address.wrapping_add(1), high);
}
