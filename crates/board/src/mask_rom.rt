// The mask-ROM board: a ROM image from address 0 up and 256 bytes of RAM at the top.
ghost use Rattle.std.specs.Prelude.{◌≡◌, ℕ, List, replicate};
ghost use Rattle.board.specs.MaskRom.{mask_rom_cells};
ghost use Rattle.board.specs.Of.{mask_rom_of, image_of};
ghost use Rattle.std.proofs.Common.{rules};

use crate::{ABSENT, Board};

/// How much of a ROM image the part can hold.
const ROM_SIZE: usize = 0x1000;

/// The first address of RAM.
const RAM_START: usize = 0xff00;

/// A ROM image, whose bytes past 4,096 are unused, and 256 bytes of RAM at FF00H to FFFFH. All else holds FFH; all but RAM is fixed.
/// Contracts see it through `mask_rom_of`, a function as `flat_of` is.
#[derive(Drop)]
pub struct MaskRomBoard {
    rom: Vec<u8>,
    ram: [u8; 256],
}

impl MaskRomBoard {
    /// A board with a ROM image, its RAM zero.
    pub fn new(rom: Vec<u8>) -> MaskRomBoard
        ensures cells { mask_rom_of result ≡ mask_rom_cells rom.items (replicate 256 0) }
        ensures image { image_of result ≡ rom.items }
    {
        MaskRomBoard { rom, ram: [0; 256] }
    }

    /// The ROM image back, whole.
    pub fn into_rom(self) -> Vec<u8>
        ensures { result.items ≡ image_of self }
    {
        let MaskRomBoard { rom, .. } = self;
        rom
    }
}

impl Board for MaskRomBoard {
    ghost cells = { mask_rom_of };

    ghost Rest = { List ℕ };

    ghost rest = { image_of };

    ghost bounded = { Prim.search rules };

    fn read(&self, address: u16) -> u8 {
        let at = usize::from(address);
        if at >= RAM_START {
            self.ram[at - RAM_START]
        } else if at < ROM_SIZE {
            self.rom.get(at).copied().unwrap_or(ABSENT)
        } else {
            ABSENT
        }
    }

    #[tactic(auto, unfolding(crate::specs::Cells::written))]
    fn write(&mut self, address: u16, byte: u8) {
        let at = usize::from(address);
        if at >= RAM_START {
            self.ram[at - RAM_START] = byte;
        }
    }
}
