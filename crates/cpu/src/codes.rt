// The code that stands at an address.
ghost use Rattle.std.specs.Prelude.{◌≡◌, Some};
ghost use Rattle.cpu.specs.Codes.{code_at, undefined_at, undefined_text};

use board::Board;
use isa::{Instruction, Undefined, decode};
use std::error::Error;
use std::fmt;

/// An undefined code: where it stands, and its two bytes. The second is 00 if the first alone is undefined, and no `Option`: so it is listed.
#[derive(Clone, Copy, PartialEq, Eq, Debug)]
pub struct UndefinedCode {
    pub address: u16,
    pub first: u8,
    pub second: u8,
}

impl fmt::Display for UndefinedCode {
    ghost output = { λ code. Some (undefined_text code) };

    fn fmt<W: fmt::Write>(&self, f: &mut fmt::Formatter<W>) -> fmt::Result {
        write!(
            f,
            "the code {:X}H {:X}H at {:X}H is undefined",
            self.first, self.second, self.address
        )
    }
}

impl Error for UndefinedCode {}

// What stands there, or which byte makes it undefined. The code is named by the caller: a longer error would make every fetch slower.
#[tactic(auto, unfolding(crate::specs::Codes::code_at))]
pub(crate) fn fetch<B: Board>(board: &B, address: u16) -> Result<Instruction, Undefined>
    ensures { result ≡ code_at (B.Board.cells board.now) address }
{
    let first = board.read(address);
    let second = board.read(address.wrapping_add(1));
    decode(first, second)
}

pub(crate) fn undefined_code<B: Board>(board: &B, address: u16, decided: Undefined) -> UndefinedCode
    ensures { result ≡ undefined_at (B.Board.cells board.now) address decided }
{
    let first = board.read(address);
    let second = match decided {
        Undefined::First => 0,
        Undefined::Second => board.read(address.wrapping_add(1)),
    };
    UndefinedCode {
        address,
        first,
        second,
    }
}
