// What arithmetic costs.
ghost use Rattle.isa.specs.Costs.{arithmetic_cost};

use crate::costs::Costs;
use crate::instructions::Arithmetic;

impl Costs for Arithmetic {
    ghost cost = { arithmetic_cost };

    fn length(self) -> u8 {
        match self {
            Arithmetic::Inr(_) | Arithmetic::Dcr(_) | Arithmetic::Inx(_) | Arithmetic::Dcx(_) => 1,
            Arithmetic::Daa => 1,
            Arithmetic::OperateA(_, _)
            | Arithmetic::OperateR(_, _)
            | Arithmetic::OperateX(_, _)
            | Arithmetic::OperateByte(_) => 2,
            Arithmetic::OperateEa(_, _)
            | Arithmetic::Eadd(_)
            | Arithmetic::Esub(_)
            | Arithmetic::Mul(_) => 2,
            Arithmetic::Div(_) | Arithmetic::Inrw | Arithmetic::Dcrw | Arithmetic::Stc => 2,
            Arithmetic::Clc | Arithmetic::Nega | Arithmetic::Rld | Arithmetic::Rrd => 2,
            Arithmetic::Rll(_) | Arithmetic::Rlr(_) | Arithmetic::Sll(_) | Arithmetic::Slr(_) => 2,
            Arithmetic::Sllc(_) | Arithmetic::Slrc(_) | Arithmetic::Drll | Arithmetic::Drlr => 2,
            Arithmetic::Dsll | Arithmetic::Dslr => 2,
            Arithmetic::OperateRByte(_, _)
            | Arithmetic::OperateW(_)
            | Arithmetic::OperateWByte(_) => 3,
        }
    }

    fn states(self) -> u8 {
        match self {
            Arithmetic::Inr(_) | Arithmetic::Dcr(_) | Arithmetic::Daa => 4,
            Arithmetic::OperateByte(_) | Arithmetic::Inx(_) | Arithmetic::Dcx(_) => 7,
            Arithmetic::OperateA(_, _)
            | Arithmetic::OperateR(_, _)
            | Arithmetic::Stc
            | Arithmetic::Clc => 8,
            Arithmetic::Nega | Arithmetic::Rll(_) | Arithmetic::Rlr(_) | Arithmetic::Sll(_) => 8,
            Arithmetic::Slr(_) | Arithmetic::Sllc(_) | Arithmetic::Slrc(_) | Arithmetic::Drll => 8,
            Arithmetic::Drlr | Arithmetic::Dsll | Arithmetic::Dslr => 8,
            Arithmetic::OperateX(_, _)
            | Arithmetic::OperateRByte(_, _)
            | Arithmetic::OperateEa(_, _)
            | Arithmetic::Eadd(_) => 11,
            Arithmetic::Esub(_) => 11,
            Arithmetic::OperateW(_) => 14,
            Arithmetic::Inrw | Arithmetic::Dcrw => 16,
            Arithmetic::Rld | Arithmetic::Rrd => 17,
            Arithmetic::Mul(_) => 32,
            Arithmetic::Div(_) => 59,
            Arithmetic::OperateWByte(operation) if operation.stores() => 19,
            Arithmetic::OperateWByte(_) => 13,
        }
    }

    fn skipped(self) -> u8 {
        match self {
            Arithmetic::Inr(_) | Arithmetic::Dcr(_) | Arithmetic::Inx(_) | Arithmetic::Dcx(_) => 4,
            Arithmetic::Daa => 4,
            Arithmetic::OperateByte(_) | Arithmetic::Inrw | Arithmetic::Dcrw => 7,
            Arithmetic::OperateA(_, _)
            | Arithmetic::OperateR(_, _)
            | Arithmetic::OperateX(_, _)
            | Arithmetic::OperateEa(_, _) => 8,
            Arithmetic::Eadd(_) | Arithmetic::Esub(_) | Arithmetic::Mul(_) | Arithmetic::Div(_) =>
                8,
            Arithmetic::Stc | Arithmetic::Clc | Arithmetic::Nega | Arithmetic::Rld => 8,
            Arithmetic::Rrd | Arithmetic::Rll(_) | Arithmetic::Rlr(_) | Arithmetic::Sll(_) => 8,
            Arithmetic::Slr(_) | Arithmetic::Sllc(_) | Arithmetic::Slrc(_) | Arithmetic::Drll => 8,
            Arithmetic::Drlr | Arithmetic::Dsll | Arithmetic::Dslr => 8,
            Arithmetic::OperateWByte(_) => 10,
            Arithmetic::OperateRByte(_, _) | Arithmetic::OperateW(_) => 11,
        }
    }
}
