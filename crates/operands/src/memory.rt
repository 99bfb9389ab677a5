// Words in memory and on the stack, and the data bytes of an instruction, which PC is past already.
// Registers and board are two parameters: `&` and `&mut` say which of them a function changes.
ghost use Rattle.std.specs.Prelude.{◌≡◌, [], ◌∷◌};
ghost use Rattle.machine.specs.Effects.{Writes};
ghost use Rattle.machine.specs.Words.{word_at, pushed};
ghost use Rattle.machine.specs.Operands.{last_byte, byte_before, data_word, working};
ghost use Rattle.machine.specs.Control.{status_pushed};

use board::Board;
use registers::file::Registers;

pub fn read_word<B: Board>(board: &B, address: u16) -> u16
    ensures { result ≡ word_at (B.Board.cells board.now) address }
{
    u16::from_le_bytes([board.read(address), board.read(address.wrapping_add(1))])
}

// The high byte is stored first.
pub fn push_word<B: Board>(board: &mut B, sp: u16, word: u16)
    ensures { Writes B.Board (pushed sp word) board.old board.new }
{
    let [high, low] = word.to_be_bytes();
    board.write(sp.wrapping_sub(1), high);
    board.write(sp.wrapping_sub(2), low);
}

/// PSW and PC go to the stack as an interrupt begins: PSW first, then PC, its high byte first.
pub fn push_status<B: Board>(board: &mut B, sp: u16, psw: u8, pc: u16)
    ensures { Writes B.Board (status_pushed sp psw pc) board.old board.new }
{
    let [high, low] = pc.to_be_bytes();
    board.write(sp.wrapping_sub(1), psw);
    board.write(sp.wrapping_sub(2), high);
    board.write(sp.wrapping_sub(3), low);
}

/// The data byte, or the last of two.
pub fn data_byte<B: Board>(registers: &Registers, board: &B) -> u8
    ensures { result ≡ last_byte (B.Board.cells board.now) registers.now }
{
    board.read(registers.pc.wrapping_sub(1))
}

/// Both data bytes, where there are two.
pub fn data_bytes<B: Board>(registers: &Registers, board: &B) -> [u8; 2]
    ensures { result ≡ byte_before (B.Board.cells board.now) registers.now ∷ last_byte (B.Board.cells board.now) registers.now ∷ [] }
{
    let first = board.read(registers.pc.wrapping_sub(2));
    [first, data_byte(registers, board)]
}

pub fn read_data_word<B: Board>(registers: &Registers, board: &B) -> u16
    ensures { result ≡ data_word (B.Board.cells board.now) registers.now }
{
    u16::from_le_bytes(data_bytes(registers, board))
}

// The address of a working cell.
pub fn working_address(registers: &Registers, wa: u8) -> u16
    ensures { result ≡ working wa registers.now }
{
    u16::from_be_bytes([registers.main.v, wa])
}
