// Boards: the memory that a core reads and writes.
#![tactic(auto)]

ghost use Rattle.std.specs.Prelude.{◌≡◌};
ghost use Rattle.board.specs.Cells.{Cells, written, Bounded};

pub mod flat;
pub mod mask_rom;

/// What an address holds at which a make has no memory.
const ABSENT: u8 = 0xff;

/// A board means 65,536 one-byte cells, and for each address whether it is fixed.
pub trait Board {
    ghost cells: { Self → Cells };

    /// What a make holds besides its cells, and no write changes.
    ghost Rest: { Type 0 };

    ghost rest: { Self → Rest };

    /// The byte at an address.
    fn read(&self, address: u16) -> u8
        ensures { result ≡ (cells self.now).at address };

    /// Sets the cell at an address, unless that is fixed.
    fn write(&mut self, address: u16, byte: u8)
        ensures after { cells self.new ≡ written (cells self.old) address byte }
        ensures keeps { rest self.new ≡ rest self.old };

    ghost bounded: { (board : Self) → Bounded (cells board) };
}
