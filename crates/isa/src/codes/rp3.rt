// rp3, in 2 bits.
ghost use Rattle.std.proofs.Common.{rules};
ghost use Rattle.isa.specs.Again.{rp3_again};
ghost use Rattle.isa.specs.Codes.{rp3_at, rp3_code};

use crate::codes::Operand;
use crate::operands::Rp3;

#[tactic(auto, unfolding(crate::specs::Codes::rp3_at))]
impl Operand for Rp3 {
    ghost limit = { 4 };

    ghost at = { rp3_at };

    ghost code = { rp3_code };

    ghost again = { rp3_again };

    ghost low = { Prim.search rules };

    fn at(bits: u8) -> Rp3 {
        match bits % 4 {
            1 => Rp3::Bc,
            2 => Rp3::De,
            _ => Rp3::Hl,
        }
    }

    fn code(self) -> u8 {
        self as u8
    }
}
