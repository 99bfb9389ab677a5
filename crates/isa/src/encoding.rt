// Encoding: the opcode of an instruction.
ghost use Rattle.std.specs.Prelude.{◌≡◌, Option};
ghost use Rattle.alu.specs.Naming.{operation_code};
ghost use Rattle.isa.specs.declared.encoding.Opcode.{Opcode};
ghost use Rattle.isa.specs.Encoding.{encoded, transfer_opcode, arithmetic_opcode, jump_opcode, special_opcode, control_opcode, one as one_byte, two as two_bytes, takes_a};

use crate::codes::Operand;
use crate::instructions::{Arithmetic, Control, Instruction, Jump, Special, Transfer};
use crate::operands::Rp2;
use crate::special::{operable, readable, writable};
use alu::Operation;

/// The bytes of a code that say which instruction it is.
#[derive(Clone, Copy, PartialEq, Eq, Debug)]
pub enum Opcode {
    One(u8),
    /// A prefix and the byte behind it.
    Two(u8, u8),
}

impl Instruction {
    /// Its opcode; none for operands that its codes cannot name.
    pub fn encode(self) -> Option<Opcode>
        ensures { result ≡ encoded self }
    {
        match self {
            Instruction::Transfer(instruction) => instruction.encode(),
            Instruction::Arithmetic(instruction) => instruction.encode(),
            Instruction::Jump(instruction) => instruction.encode(),
            Instruction::Special(instruction) => instruction.encode(),
            Instruction::Control(instruction) => instruction.encode(),
        }
    }
}

// The opcodes of a family.
trait Encode {
    ghost opcode: { Self → Option Opcode };

    fn encode(self) -> Option<Opcode>
        ensures { result ≡ opcode self };
}

impl Encode for Transfer {
    ghost opcode = { transfer_opcode };

    fn encode(self) -> Option<Opcode> {
        match self {
            Transfer::MovToR1(register) => one(0x18 + register.code()),
            Transfer::MovFromR1(register) => one(0x08 + register.code()),
            Transfer::MovLoad(register) => two(0x70, 0x68 + register.code()),
            Transfer::MovStore(register) => two(0x70, 0x78 + register.code()),
            Transfer::Mvi(register) => one(0x68 + register.code()),
            Transfer::Mviw => one(0x71),
            Transfer::Mvix(pair) => one(0x48 + pair.code()),
            Transfer::Staw => one(0x63),
            Transfer::Ldaw => one(0x01),
            Transfer::Stax(place) => one(place.code() / 8 * 128 + 0x38 + place.code() % 8),
            Transfer::Ldax(place) => one(place.code() / 8 * 128 + 0x28 + place.code() % 8),
            Transfer::Exx => one(0x11),
            Transfer::Exa => one(0x10),
            Transfer::Exh => one(0x50),
            Transfer::Block => one(0x31),
            Transfer::DmovFromEa(pair) => one(0xB4 + pair.code()),
            Transfer::DmovToEa(pair) => one(0xA4 + pair.code()),
            Transfer::StoreRp(pair) => two(0x70, 16 * pair.code() + 0x0E),
            Transfer::LoadRp(pair) => two(0x70, 16 * pair.code() + 0x0F),
            Transfer::Steax(place) => two(0x48, 0x90 + place.code()),
            Transfer::Ldeax(place) => two(0x48, 0x80 + place.code()),
            Transfer::Push(pair) => one(0xB0 + pair.code()),
            Transfer::Pop(pair) => one(0xA0 + pair.code()),
            Transfer::Lxi(pair) => one(16 * pair.code() + 0x04),
            Transfer::Table => two(0x48, 0xA8),
        }
    }
}

impl Encode for Arithmetic {
    ghost opcode = { arithmetic_opcode };

    fn encode(self) -> Option<Opcode> {
        match self {
            Arithmetic::OperateA(operation, register) => two(
                0x60,
                0x80 + 8 * operation.code() + register.code(),
            ),
            Arithmetic::OperateR(operation, register) if takes_a(operation) => two(
                0x60,
                8 * operation.code() + register.code(),
            ),
            Arithmetic::OperateR(_, _) => None,
            Arithmetic::OperateX(operation, place) if place.code() < 8 => two(
                0x70,
                0x80 + 8 * operation.code() + place.code(),
            ),
            Arithmetic::OperateX(_, _) => None,
            Arithmetic::OperateByte(operation) => one(
                operation.code() / 2 * 16 + 0x06 + operation.code() % 2,
            ),
            Arithmetic::OperateRByte(operation, register) => two(
                0x74,
                8 * operation.code() + register.code(),
            ),
            Arithmetic::OperateW(operation) => two(0x74, 0x80 + 8 * operation.code()),
            Arithmetic::OperateWByte(operation) if operation.code() % 2 == 1 => one(
                operation.code() / 2 * 16 + 0x05,
            ),
            Arithmetic::OperateWByte(_) => None,
            Arithmetic::OperateEa(operation, pair) => two(
                0x74,
                0x84 + 8 * operation.code() + pair.code(),
            ),
            Arithmetic::Eadd(register) => two(0x70, 0x40 + register.code()),
            Arithmetic::Esub(register) => two(0x70, 0x60 + register.code()),
            Arithmetic::Mul(register) => two(0x48, 0x2C + register.code()),
            Arithmetic::Div(register) => two(0x48, 0x3C + register.code()),
            Arithmetic::Inr(register) => one(0x40 + register.code()),
            Arithmetic::Dcr(register) => one(0x50 + register.code()),
            Arithmetic::Inrw => one(0x20),
            Arithmetic::Dcrw => one(0x30),
            Arithmetic::Inx(Rp2::Ea) => one(0xA8),
            Arithmetic::Inx(pair) => one(16 * pair.code() + 0x02),
            Arithmetic::Dcx(Rp2::Ea) => one(0xA9),
            Arithmetic::Dcx(pair) => one(16 * pair.code() + 0x03),
            Arithmetic::Daa => one(0x61),
            Arithmetic::Stc => two(0x48, 0x2B),
            Arithmetic::Clc => two(0x48, 0x2A),
            Arithmetic::Nega => two(0x48, 0x3A),
            Arithmetic::Rld => two(0x48, 0x38),
            Arithmetic::Rrd => two(0x48, 0x39),
            Arithmetic::Rll(register) => two(0x48, 0x34 + register.code()),
            Arithmetic::Rlr(register) => two(0x48, 0x30 + register.code()),
            Arithmetic::Sll(register) => two(0x48, 0x24 + register.code()),
            Arithmetic::Slr(register) => two(0x48, 0x20 + register.code()),
            Arithmetic::Sllc(register) => two(0x48, 0x04 + register.code()),
            Arithmetic::Slrc(register) => two(0x48, register.code()),
            Arithmetic::Drll => two(0x48, 0xB4),
            Arithmetic::Drlr => two(0x48, 0xB0),
            Arithmetic::Dsll => two(0x48, 0xA4),
            Arithmetic::Dslr => two(0x48, 0xA0),
        }
    }
}

impl Encode for Jump {
    ghost opcode = { jump_opcode };

    fn encode(self) -> Option<Opcode> {
        match self {
            Jump::Jmp => one(0x54),
            Jump::Jb => one(0x21),
            Jump::Jr(offset) if offset < 64 => one(0xC0 + offset),
            Jump::Jr(_) => None,
            Jump::JreForward => one(0x4E),
            Jump::JreBackward => one(0x4F),
            Jump::Jea => two(0x48, 0x28),
            Jump::Call => one(0x40),
            Jump::Calb => two(0x48, 0x29),
            Jump::Calf(area) if area < 8 => one(0x78 + area),
            Jump::Calf(_) => None,
            Jump::Calt(entry) if entry < 32 => one(0x80 + entry),
            Jump::Calt(_) => None,
            Jump::Softi => one(0x72),
            Jump::Ret => one(0xB8),
            Jump::Rets => one(0xB9),
            Jump::Reti => one(0x62),
        }
    }
}

impl Encode for Special {
    ghost opcode = { special_opcode };

    fn encode(self) -> Option<Opcode> {
        match self {
            Special::MovToSr(special) if writable(special) => two(0x4D, 0xC0 + special),
            Special::MovToSr(_) => None,
            Special::MovFromSr1(special) if readable(special) => two(0x4C, 0xC0 + special),
            Special::MovFromSr1(_) => None,
            Special::MviSr2(special) if operable(special) => two(
                0x64,
                special / 8 * 128 + special % 8,
            ),
            Special::MviSr2(_) => None,
            Special::OperateSr2(operation, special) if operable(special) => two(
                0x64,
                special / 8 * 128 + 8 * operation.code() + special % 8,
            ),
            Special::OperateSr2(_, _) => None,
        }
    }
}

impl Encode for Control {
    ghost opcode = { control_opcode };

    fn encode(self) -> Option<Opcode> {
        match self {
            Control::Bit(bit) if bit < 8 => one(0x58 + bit),
            Control::Bit(_) => None,
            Control::Sk(flag) => two(0x48, 0x08 + flag.code()),
            Control::Skn(flag) => two(0x48, 0x18 + flag.code()),
            Control::Skit(line) => two(0x48, 0x40 + line.code()),
            Control::Sknit(line) => two(0x48, 0x60 + line.code()),
            Control::Nop => one(0x00),
            Control::Ei => one(0xAA),
            Control::Di => one(0xBA),
            Control::Hlt => two(0x48, 0x3B),
        }
    }
}

fn one(first: u8) -> Option<Opcode>
    ensures { result ≡ one_byte first }
{
    Some(Opcode::One(first))
}

fn two(prefix: u8, second: u8) -> Option<Opcode>
    ensures { result ≡ two_bytes prefix second }
{
    Some(Opcode::Two(prefix, second))
}

// ON and OFF do not take r,A.
fn takes_a(operation: Operation) -> bool
    ensures { result ≡ takes_a (operation_code operation) }
{
    !matches!(operation, Operation::On | Operation::Off)
}
