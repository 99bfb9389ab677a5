// Operation k, 1 to 15; 0, which no caller asks for, is read as 15.
ghost use Rattle.std.proofs.Common.{rules};
ghost use Rattle.isa.specs.Again.{operation_again};
ghost use Rattle.alu.specs.Naming.{operation_code};
ghost use Rattle.isa.specs.Codes.{operation_at};

use crate::codes::Operand;
use alu::Operation;

#[tactic(auto, unfolding(crate::specs::Codes::operation_at))]
impl Operand for Operation {
    ghost limit = { 16 };

    ghost at = { operation_at };

    ghost code = { operation_code };

    ghost again = { operation_again };

    ghost low = { Prim.search rules };

    fn at(bits: u8) -> Operation {
        Operation::try_from(bits).unwrap_or(Operation::Equal)
    }

    fn code(self) -> u8 {
        self.code()
    }
}
