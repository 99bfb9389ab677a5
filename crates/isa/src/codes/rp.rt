// rp, in 2 bits.
ghost use Rattle.std.proofs.Common.{rules};
ghost use Rattle.isa.specs.Again.{rp_again};
ghost use Rattle.isa.specs.Codes.{rp_at, rp_code};

use crate::codes::Operand;
use crate::operands::Rp;

#[tactic(auto, unfolding(crate::specs::Codes::rp_at))]
impl Operand for Rp {
    ghost limit = { 4 };

    ghost at = { rp_at };

    ghost code = { rp_code };

    ghost again = { rp_again };

    ghost low = { Prim.search rules };

    fn at(bits: u8) -> Rp {
        match bits % 4 {
            0 => Rp::Sp,
            1 => Rp::Bc,
            2 => Rp::De,
            _ => Rp::Hl,
        }
    }

    fn code(self) -> u8 {
        self as u8
    }
}
