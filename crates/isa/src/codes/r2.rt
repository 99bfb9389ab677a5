// r2, in 2 bits.
ghost use Rattle.std.proofs.Common.{rules};
ghost use Rattle.isa.specs.Again.{r2_again};
ghost use Rattle.isa.specs.Codes.{r2_at, r2_code};

use crate::codes::Operand;
use crate::operands::R2;

#[tactic(auto, unfolding(crate::specs::Codes::r2_at))]
impl Operand for R2 {
    ghost limit = { 4 };

    ghost at = { r2_at };

    ghost code = { r2_code };

    ghost again = { r2_again };

    ghost low = { Prim.search rules };

    fn at(bits: u8) -> R2 {
        match bits % 4 {
            1 => R2::A,
            2 => R2::B,
            _ => R2::C,
        }
    }

    fn code(self) -> u8 {
        self as u8
    }
}
