// What transfers and operations on special registers cost.
ghost use Rattle.isa.specs.Costs.{special_cost};

use crate::costs::Costs;
use crate::instructions::Special;

impl Costs for Special {
    ghost cost = { special_cost };

    fn length(self) -> u8 {
        match self {
            Special::MovToSr(_) | Special::MovFromSr1(_) => 2,
            Special::MviSr2(_) | Special::OperateSr2(_, _) => 3,
        }
    }

    fn states(self) -> u8 {
        match self {
            Special::MovToSr(_) | Special::MovFromSr1(_) => 10,
            Special::MviSr2(_) => 14,
            Special::OperateSr2(operation, _) if operation.stores() => 20,
            Special::OperateSr2(_, _) => 14,
        }
    }

    fn skipped(self) -> u8 {
        match self {
            Special::MovToSr(_) | Special::MovFromSr1(_) => 8,
            Special::MviSr2(_) | Special::OperateSr2(_, _) => 11,
        }
    }
}
