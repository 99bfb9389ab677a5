// rpa3, in 4 bits.
ghost use Rattle.std.proofs.Common.{rules};
ghost use Rattle.isa.specs.Again.{rpa3_again};
ghost use Rattle.isa.specs.Codes.{rpa3_at, rpa3_code};

use crate::codes::Operand;
use crate::operands::Rpa3;

#[tactic(auto, unfolding(crate::specs::Codes::rpa3_at))]
impl Operand for Rpa3 {
    ghost limit = { 16 };

    ghost at = { rpa3_at };

    ghost code = { rpa3_code };

    ghost again = { rpa3_again };

    ghost low = { Prim.search rules };

    fn at(bits: u8) -> Rpa3 {
        match bits % 16 {
            2 => Rpa3::De,
            3 => Rpa3::Hl,
            4 => Rpa3::DeUpTwo,
            5 => Rpa3::HlUpTwo,
            11 => Rpa3::DeByte,
            12 => Rpa3::HlA,
            13 => Rpa3::HlB,
            14 => Rpa3::HlEa,
            _ => Rpa3::HlByte,
        }
    }

    fn code(self) -> u8 {
        self as u8
    }
}
