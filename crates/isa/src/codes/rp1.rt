// rp1, in 3 bits.
ghost use Rattle.std.proofs.Common.{rules};
ghost use Rattle.isa.specs.Again.{rp1_again};
ghost use Rattle.isa.specs.Codes.{rp1_at, rp1_code};

use crate::codes::Operand;
use crate::operands::Rp1;

#[tactic(auto, unfolding(crate::specs::Codes::rp1_at))]
impl Operand for Rp1 {
    ghost limit = { 8 };

    ghost at = { rp1_at };

    ghost code = { rp1_code };

    ghost again = { rp1_again };

    ghost low = { Prim.search rules };

    fn at(bits: u8) -> Rp1 {
        match bits % 8 {
            0 => Rp1::Va,
            1 => Rp1::Bc,
            2 => Rp1::De,
            3 => Rp1::Hl,
            _ => Rp1::Ea,
        }
    }

    fn code(self) -> u8 {
        self as u8
    }
}
