// The choice of an arithmetic instruction.
// Registers and board are two parameters: `&` and `&mut` say which of them a function changes.
ghost use Rattle.machine.specs.Effects.{Acts};
ghost use Rattle.machine.specs.Instructions.{computed};

use crate::changes::turn_cell;
use crate::counting::{count_register, count_working};
use crate::operations::{
    adjust_a, divide_by, multiply_by, negate_a, operate_a, operate_ea, operate_ea_byte,
    operate_immediate, operate_indirect, operate_r, operate_working, operate_working_cell,
};
use crate::shifts::{shift_ea, shift_register, shift_register_and_skip};
use alu::{Count, Operation, Shift, rotate_digits_left, rotate_digits_right};
use board::Board;
use isa::Arithmetic;
use operands::{step_down, step_up};
use registers::bank::ByteRegister;
use registers::file::Registers;

/// Executes an arithmetic instruction.
pub fn compute<B: Board>(registers: &mut Registers, board: &mut B, instruction: Arithmetic)
    ensures { Acts B.Board (computed instruction) (registers.old, board.old) (registers.new, board.new) }
{
    match instruction {
        Arithmetic::OperateA(operation, r) => operate_a(registers, operation, r),
        Arithmetic::OperateR(operation, r) => operate_r(registers, operation, r),
        Arithmetic::OperateX(operation, place) => operate_indirect(
            registers, board, operation, place,
        ),
        Arithmetic::OperateByte(operation) => operate_immediate(
            registers,
            board,
            operation,
            ByteRegister::A,
        ),
        Arithmetic::OperateRByte(operation, r) => operate_immediate(registers, board, operation, r),
        Arithmetic::OperateW(operation) => operate_working(registers, board, operation),
        Arithmetic::OperateWByte(operation) => operate_working_cell(registers, board, operation),
        Arithmetic::OperateEa(operation, rp3) => operate_ea(registers, operation, rp3.into()),
        Arithmetic::Eadd(r2) => operate_ea_byte(registers, Operation::Add, r2.into()),
        Arithmetic::Esub(r2) => operate_ea_byte(registers, Operation::Sub, r2.into()),
        Arithmetic::Mul(r2) => multiply_by(registers, r2.into()),
        Arithmetic::Div(r2) => divide_by(registers, r2.into()),
        Arithmetic::Inr(r2) => count_register(registers, Count::Up, r2.into()),
        Arithmetic::Dcr(r2) => count_register(registers, Count::Down, r2.into()),
        Arithmetic::Inrw => count_working(registers, board, Count::Up),
        Arithmetic::Dcrw => count_working(registers, board, Count::Down),
        Arithmetic::Inx(rp2) => step_up(registers, rp2.into(), 1),
        Arithmetic::Dcx(rp2) => step_down(registers, rp2.into()),
        Arithmetic::Daa => adjust_a(registers),
        Arithmetic::Stc => registers.flags.carry = true,
        Arithmetic::Clc => registers.flags.carry = false,
        Arithmetic::Nega => negate_a(registers),
        Arithmetic::Rld => turn_cell(registers, board, |cell, a| rotate_digits_left(a, cell)),
        Arithmetic::Rrd => turn_cell(registers, board, |cell, a| rotate_digits_right(a, cell)),
        Arithmetic::Rll(r2) => shift_register(registers, Shift::RotateLeft, r2.into()),
        Arithmetic::Rlr(r2) => shift_register(registers, Shift::RotateRight, r2.into()),
        Arithmetic::Sll(r2) => shift_register(registers, Shift::Left, r2.into()),
        Arithmetic::Slr(r2) => shift_register(registers, Shift::Right, r2.into()),
        Arithmetic::Sllc(r2) => shift_register_and_skip(registers, Shift::Left, r2.into()),
        Arithmetic::Slrc(r2) => shift_register_and_skip(registers, Shift::Right, r2.into()),
        Arithmetic::Drll => shift_ea(registers, Shift::RotateLeft),
        Arithmetic::Drlr => shift_ea(registers, Shift::RotateRight),
        Arithmetic::Dsll => shift_ea(registers, Shift::Left),
        Arithmetic::Dslr => shift_ea(registers, Shift::Right),
    }
}
