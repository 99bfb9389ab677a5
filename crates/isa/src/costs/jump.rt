// What jumps, calls and returns cost.
ghost use Rattle.isa.specs.Costs.{jump_cost};

use crate::costs::Costs;
use crate::instructions::Jump;

impl Costs for Jump {
    ghost cost = { jump_cost };

    fn length(self) -> u8 {
        match self {
            Jump::Jb | Jump::Jr(_) | Jump::Calt(_) | Jump::Softi => 1,
            Jump::Ret | Jump::Rets | Jump::Reti => 1,
            Jump::JreForward | Jump::JreBackward | Jump::Jea | Jump::Calb => 2,
            Jump::Calf(_) => 2,
            Jump::Jmp | Jump::Call => 3,
        }
    }

    fn states(self) -> u8 {
        match self {
            Jump::Jb => 4,
            Jump::Jea => 8,
            Jump::Jmp | Jump::Jr(_) | Jump::JreForward | Jump::JreBackward => 10,
            Jump::Ret | Jump::Rets => 10,
            Jump::Calf(_) | Jump::Reti => 13,
            Jump::Call | Jump::Calt(_) | Jump::Softi => 16,
            Jump::Calb => 17,
        }
    }

    fn skipped(self) -> u8 {
        match self {
            Jump::Jb | Jump::Jr(_) | Jump::Calt(_) | Jump::Softi => 4,
            Jump::Ret | Jump::Rets | Jump::Reti => 4,
            Jump::JreForward | Jump::JreBackward | Jump::Calf(_) => 7,
            Jump::Jea | Jump::Calb => 8,
            Jump::Jmp | Jump::Call => 10,
        }
    }
}
