// f, in 3 bits.
ghost use Rattle.std.proofs.Common.{rules};
ghost use Rattle.isa.specs.Again.{flag_again};
ghost use Rattle.isa.specs.Codes.{flag_at, flag_code};

use crate::codes::Operand;
use crate::operands::Flag;

#[tactic(auto, unfolding(crate::specs::Codes::flag_at))]
impl Operand for Flag {
    ghost limit = { 8 };

    ghost at = { flag_at };

    ghost code = { flag_code };

    ghost again = { flag_again };

    ghost low = { Prim.search rules };

    fn at(bits: u8) -> Flag {
        match bits % 8 {
            2 => Flag::Carry,
            3 => Flag::Half,
            _ => Flag::Zero,
        }
    }

    fn code(self) -> u8 {
        self as u8
    }
}
