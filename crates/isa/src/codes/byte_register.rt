// r, in 3 bits.
ghost use Rattle.std.proofs.Common.{rules};
ghost use Rattle.isa.specs.Again.{register_again};
ghost use Rattle.isa.specs.Codes.{register_at, register_code};

use crate::codes::Operand;
use registers::bank::ByteRegister;

#[tactic(auto, unfolding(crate::specs::Codes::register_at))]
impl Operand for ByteRegister {
    ghost limit = { 8 };

    ghost at = { register_at };

    ghost code = { register_code };

    ghost again = { register_again };

    ghost low = { Prim.search rules };

    fn at(bits: u8) -> ByteRegister {
        ByteRegister::of_code(bits)
    }

    fn code(self) -> u8 {
        self as u8
    }
}
