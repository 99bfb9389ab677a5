// The flat board: a memory of any length from address 0 up, fixed below a number.
ghost use Rattle.std.specs.Prelude.{◌≡◌};
ghost use Rattle.board.specs.Flat.{flat_cells, flat_rest, flat_memory, FlatRest};
ghost use Rattle.board.specs.Of.{flat_of, flat_rest_of};
ghost use Rattle.std.proofs.Common.{rules};

use crate::{ABSENT, Board};

/// A memory that begins at address 0. Addresses that it does not reach hold FFH and are fixed; bytes past the last address are unused.
/// Contracts see it through `flat_of`: its cells are a function of the address, which a model's value cannot be.
#[derive(Drop)]
pub struct FlatBoard {
    memory: Vec<u8>,
    fixed_below: u32,
}

impl FlatBoard {
    /// A board over a memory, fixed below a number.
    pub fn new(memory: Vec<u8>, fixed_below: u32) -> FlatBoard
        ensures cells { flat_of result ≡ flat_cells memory.items fixed_below }
        ensures rest { flat_rest_of result ≡ flat_rest memory.items fixed_below }
    {
        FlatBoard {
            memory,
            fixed_below,
        }
    }

    /// The memory back, with its unused bytes.
    pub fn into_memory(self) -> Vec<u8>
        ensures { result.items ≡ flat_memory (flat_of self) (flat_rest_of self) }
    {
        let FlatBoard { memory, .. } = self;
        memory
    }
}

impl Board for FlatBoard {
    ghost cells = { flat_of };

    ghost Rest = { FlatRest };

    ghost rest = { flat_rest_of };

    ghost bounded = { Prim.search rules };

    fn read(&self, address: u16) -> u8 {
        let at = usize::from(address);
        self.memory.get(at).copied().unwrap_or(ABSENT)
    }

    #[tactic(auto, unfolding(crate::specs::Cells::written))]
    fn write(&mut self, address: u16, byte: u8) {
        if u32::from(address) >= self.fixed_below
            && let Some(cell) = self.memory.get_mut(usize::from(address))
        {
            *cell = byte;
        }
    }
}
