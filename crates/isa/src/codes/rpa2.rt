// rpa2, in 4 bits.
ghost use Rattle.std.proofs.Common.{rules};
ghost use Rattle.isa.specs.Again.{rpa2_again};
ghost use Rattle.isa.specs.Codes.{rpa2_at, rpa2_code};

use crate::codes::Operand;
use crate::operands::Rpa2;

#[tactic(auto, unfolding(crate::specs::Codes::rpa2_at))]
impl Operand for Rpa2 {
    ghost limit = { 16 };

    ghost at = { rpa2_at };

    ghost code = { rpa2_code };

    ghost again = { rpa2_again };

    ghost low = { Prim.search rules };

    fn at(bits: u8) -> Rpa2 {
        match bits % 16 {
            1 => Rpa2::Bc,
            2 => Rpa2::De,
            3 => Rpa2::Hl,
            4 => Rpa2::DeUp,
            5 => Rpa2::HlUp,
            6 => Rpa2::DeDown,
            7 => Rpa2::HlDown,
            11 => Rpa2::DeByte,
            12 => Rpa2::HlA,
            13 => Rpa2::HlB,
            14 => Rpa2::HlEa,
            _ => Rpa2::HlByte,
        }
    }

    fn code(self) -> u8 {
        self as u8
    }
}
