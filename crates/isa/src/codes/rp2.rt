// rp2, in 3 bits.
ghost use Rattle.std.proofs.Common.{rules};
ghost use Rattle.isa.specs.Again.{rp2_again};
ghost use Rattle.isa.specs.Codes.{rp2_at, rp2_code};

use crate::codes::Operand;
use crate::operands::Rp2;

#[tactic(auto, unfolding(crate::specs::Codes::rp2_at))]
impl Operand for Rp2 {
    ghost limit = { 8 };

    ghost at = { rp2_at };

    ghost code = { rp2_code };

    ghost again = { rp2_again };

    ghost low = { Prim.search rules };

    fn at(bits: u8) -> Rp2 {
        match bits % 8 {
            0 => Rp2::Sp,
            1 => Rp2::Bc,
            2 => Rp2::De,
            3 => Rp2::Hl,
            _ => Rp2::Ea,
        }
    }

    fn code(self) -> u8 {
        self as u8
    }
}
