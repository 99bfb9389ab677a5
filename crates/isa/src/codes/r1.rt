// r1, in 3 bits.
ghost use Rattle.std.proofs.Common.{rules};
ghost use Rattle.isa.specs.Again.{r1_again};
ghost use Rattle.isa.specs.Codes.{r1_at, r1_code};

use crate::codes::Operand;
use crate::operands::R1;

#[tactic(auto, unfolding(crate::specs::Codes::r1_at))]
impl Operand for R1 {
    ghost limit = { 8 };

    ghost at = { r1_at };

    ghost code = { r1_code };

    ghost again = { r1_again };

    ghost low = { Prim.search rules };

    fn at(bits: u8) -> R1 {
        match bits % 8 {
            0 => R1::Eah,
            1 => R1::Eal,
            2 => R1::B,
            3 => R1::C,
            4 => R1::D,
            5 => R1::E,
            6 => R1::H,
            _ => R1::L,
        }
    }

    fn code(self) -> u8 {
        self as u8
    }
}
