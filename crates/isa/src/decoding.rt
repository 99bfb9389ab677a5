// Decoding: the instruction of an opcode's first byte and the byte behind it.
ghost use Rattle.std.specs.Prelude.{◌≡◌};
ghost use Rattle.isa.specs.Decoding.{decoded};

use crate::codes::Operand;
use crate::instructions::{Arithmetic, Control, Instruction, Jump, Special, Transfer};
use crate::operands::{Flag, R1, R2, Rp, Rp1, Rp2, Rp3, Rpa2, Rpa3};
use crate::special::{operable, readable, writable};
use alu::Operation;
use lines::Line;
use registers::bank::ByteRegister;

/// Which byte decides that a code is undefined.
#[derive(Clone, Copy, PartialEq, Eq, Debug)]
pub enum Undefined {
    /// The first byte alone: 06H, 28H, 38H or 73H.
    First,
    /// The byte behind a prefix.
    Second,
}

/// The second byte matters behind the prefixes 48H, 4CH, 4DH, 60H, 64H, 70H and 74H only.
#[tactic(auto, unfolding(crate::specs::Decoding::behind_48, crate::specs::Decoding::behind_4c, crate::specs::Decoding::behind_4d, crate::specs::Decoding::behind_60, crate::specs::Decoding::behind_64, crate::specs::Decoding::behind_70, crate::specs::Decoding::behind_74))]
pub fn decode(first: u8, second: u8) -> Result<Instruction, Undefined>
    ensures { result ≡ decoded first second }
{
    let k = second / 8 % 16;
    match first {
        0x00 => Ok(Instruction::Control(Control::Nop)),
        0x01 => Ok(Instruction::Transfer(Transfer::Ldaw)),
        0x02 | 0x12 | 0x22 | 0x32 => Ok(Instruction::Arithmetic(Arithmetic::Inx(Rp2::at(
            first / 16,
        )))),
        0x03 | 0x13 | 0x23 | 0x33 => Ok(Instruction::Arithmetic(Arithmetic::Dcx(Rp2::at(
            first / 16,
        )))),
        0x04 | 0x14 | 0x24 | 0x34 | 0x44 => Ok(Instruction::Transfer(Transfer::Lxi(Rp2::at(
            first / 16,
        )))),
        0x05 | 0x15 | 0x25 | 0x35 | 0x45 | 0x55 | 0x65 | 0x75 => Ok(Instruction::Arithmetic(
            Arithmetic::OperateWByte(Operation::at(first / 16 * 2 + 1)),
        )),
        0x16 | 0x26 | 0x36 | 0x46 | 0x56 | 0x66 | 0x76 => Ok(Instruction::Arithmetic(
            Arithmetic::OperateByte(Operation::at(first / 16 * 2)),
        )),
        0x07 | 0x17 | 0x27 | 0x37 | 0x47 | 0x57 | 0x67 | 0x77 => Ok(Instruction::Arithmetic(
            Arithmetic::OperateByte(Operation::at(first / 16 * 2 + 1)),
        )),
        0x06 | 0x28 | 0x38 | 0x73 => Err(Undefined::First),
        0x08..=0x0F => Ok(Instruction::Transfer(Transfer::MovFromR1(R1::at(first % 8)))),
        0x10 => Ok(Instruction::Transfer(Transfer::Exa)),
        0x11 => Ok(Instruction::Transfer(Transfer::Exx)),
        0x18..=0x1F => Ok(Instruction::Transfer(Transfer::MovToR1(R1::at(first % 8)))),
        0x20 => Ok(Instruction::Arithmetic(Arithmetic::Inrw)),
        0x21 => Ok(Instruction::Jump(Jump::Jb)),
        0x29..=0x2F => Ok(Instruction::Transfer(Transfer::Ldax(Rpa2::at(first % 8)))),
        0x30 => Ok(Instruction::Arithmetic(Arithmetic::Dcrw)),
        0x31 => Ok(Instruction::Transfer(Transfer::Block)),
        0x39..=0x3F => Ok(Instruction::Transfer(Transfer::Stax(Rpa2::at(first % 8)))),
        0x40 => Ok(Instruction::Jump(Jump::Call)),
        0x41..=0x43 => Ok(Instruction::Arithmetic(Arithmetic::Inr(R2::at(first % 4)))),
        0x48 => match second {
            0x01..=0x03 => Ok(Instruction::Arithmetic(Arithmetic::Slrc(R2::at(second % 4)))),
            0x05..=0x07 => Ok(Instruction::Arithmetic(Arithmetic::Sllc(R2::at(second % 4)))),
            0x0A..=0x0C => Ok(Instruction::Control(Control::Sk(Flag::at(second % 8)))),
            0x1A..=0x1C => Ok(Instruction::Control(Control::Skn(Flag::at(second % 8)))),
            0x21..=0x23 => Ok(Instruction::Arithmetic(Arithmetic::Slr(R2::at(second % 4)))),
            0x25..=0x27 => Ok(Instruction::Arithmetic(Arithmetic::Sll(R2::at(second % 4)))),
            0x28 => Ok(Instruction::Jump(Jump::Jea)),
            0x29 => Ok(Instruction::Jump(Jump::Calb)),
            0x2A => Ok(Instruction::Arithmetic(Arithmetic::Clc)),
            0x2B => Ok(Instruction::Arithmetic(Arithmetic::Stc)),
            0x2D..=0x2F => Ok(Instruction::Arithmetic(Arithmetic::Mul(R2::at(second % 4)))),
            0x31..=0x33 => Ok(Instruction::Arithmetic(Arithmetic::Rlr(R2::at(second % 4)))),
            0x35..=0x37 => Ok(Instruction::Arithmetic(Arithmetic::Rll(R2::at(second % 4)))),
            0x38 => Ok(Instruction::Arithmetic(Arithmetic::Rld)),
            0x39 => Ok(Instruction::Arithmetic(Arithmetic::Rrd)),
            0x3A => Ok(Instruction::Arithmetic(Arithmetic::Nega)),
            0x3B => Ok(Instruction::Control(Control::Hlt)),
            0x3D..=0x3F => Ok(Instruction::Arithmetic(Arithmetic::Div(R2::at(second % 4)))),
            0x40..=0x4A => Ok(Instruction::Control(Control::Skit(Line::at(second % 16)))),
            0x60..=0x6A => Ok(Instruction::Control(Control::Sknit(Line::at(second % 16)))),
            0x82..=0x85 | 0x8B..=0x8F => Ok(Instruction::Transfer(Transfer::Ldeax(Rpa3::at(
                second % 16,
            )))),
            0x92..=0x95 | 0x9B..=0x9F => Ok(Instruction::Transfer(Transfer::Steax(Rpa3::at(
                second % 16,
            )))),
            0xA0 => Ok(Instruction::Arithmetic(Arithmetic::Dslr)),
            0xA4 => Ok(Instruction::Arithmetic(Arithmetic::Dsll)),
            0xA8 => Ok(Instruction::Transfer(Transfer::Table)),
            0xB0 => Ok(Instruction::Arithmetic(Arithmetic::Drlr)),
            0xB4 => Ok(Instruction::Arithmetic(Arithmetic::Drll)),
            _ => Err(Undefined::Second),
        },
        0x49..=0x4B => Ok(Instruction::Transfer(Transfer::Mvix(Rp3::at(first % 4)))),
        0x4C if second >= 0xC0 && readable(second % 64) => Ok(Instruction::Special(
            Special::MovFromSr1(second % 64),
        )),
        0x4C => Err(Undefined::Second),
        0x4D if second >= 0xC0 && writable(second % 64) => Ok(Instruction::Special(Special::MovToSr(
            second % 64,
        ))),
        0x4D => Err(Undefined::Second),
        0x4E => Ok(Instruction::Jump(Jump::JreForward)),
        0x4F => Ok(Instruction::Jump(Jump::JreBackward)),
        0x50 => Ok(Instruction::Transfer(Transfer::Exh)),
        0x51..=0x53 => Ok(Instruction::Arithmetic(Arithmetic::Dcr(R2::at(first % 4)))),
        0x54 => Ok(Instruction::Jump(Jump::Jmp)),
        0x58..=0x5F => Ok(Instruction::Control(Control::Bit(first % 8))),
        0x60 if k == 0 => Err(Undefined::Second),
        0x60 if second >= 0x80 => Ok(Instruction::Arithmetic(Arithmetic::OperateA(
            Operation::at(k),
            ByteRegister::at(second % 8),
        ))),
        0x60 if k == 9 || k == 11 => Err(Undefined::Second),
        0x60 => Ok(Instruction::Arithmetic(Arithmetic::OperateR(
            Operation::at(k),
            ByteRegister::at(second % 8),
        ))),
        0x61 => Ok(Instruction::Arithmetic(Arithmetic::Daa)),
        0x62 => Ok(Instruction::Jump(Jump::Reti)),
        0x63 => Ok(Instruction::Transfer(Transfer::Staw)),
        0x64 if !operable(second % 8 + second / 128 * 8) => Err(Undefined::Second),
        0x64 if k == 0 => Ok(Instruction::Special(Special::MviSr2(second % 8 + second / 128 * 8))),
        0x64 => Ok(Instruction::Special(Special::OperateSr2(
            Operation::at(k),
            second % 8 + second / 128 * 8,
        ))),
        0x68..=0x6F => Ok(Instruction::Transfer(Transfer::Mvi(ByteRegister::at(first % 8)))),
        0x70 if second < 0x80 => match second {
            0x0E | 0x1E | 0x2E | 0x3E => Ok(Instruction::Transfer(Transfer::StoreRp(Rp::at(
                second / 16,
            )))),
            0x0F | 0x1F | 0x2F | 0x3F => Ok(Instruction::Transfer(Transfer::LoadRp(Rp::at(
                second / 16,
            )))),
            0x41..=0x43 => Ok(Instruction::Arithmetic(Arithmetic::Eadd(R2::at(second % 4)))),
            0x61..=0x63 => Ok(Instruction::Arithmetic(Arithmetic::Esub(R2::at(second % 4)))),
            0x68..=0x6F => Ok(Instruction::Transfer(Transfer::MovLoad(ByteRegister::at(
                second % 8,
            )))),
            0x78..=0x7F => Ok(Instruction::Transfer(Transfer::MovStore(ByteRegister::at(
                second % 8,
            )))),
            _ => Err(Undefined::Second),
        },
        0x70 if k == 0 || second % 8 == 0 => Err(Undefined::Second),
        0x70 => Ok(Instruction::Arithmetic(Arithmetic::OperateX(
            Operation::at(k),
            Rpa2::at(second % 8),
        ))),
        0x71 => Ok(Instruction::Transfer(Transfer::Mviw)),
        0x72 => Ok(Instruction::Jump(Jump::Softi)),
        0x74 if k == 0 => Err(Undefined::Second),
        0x74 if second < 0x80 => Ok(Instruction::Arithmetic(Arithmetic::OperateRByte(
            Operation::at(k),
            ByteRegister::at(second % 8),
        ))),
        0x74 if second % 8 == 0 => Ok(Instruction::Arithmetic(Arithmetic::OperateW(Operation::at(
            k,
        )))),
        0x74 if second % 8 > 4 => Ok(Instruction::Arithmetic(Arithmetic::OperateEa(
            Operation::at(k),
            Rp3::at(second % 4),
        ))),
        0x74 => Err(Undefined::Second),
        0x78..=0x7F => Ok(Instruction::Jump(Jump::Calf(first % 8))),
        0x80..=0x9F => Ok(Instruction::Jump(Jump::Calt(first % 32))),
        0xA0..=0xA4 => Ok(Instruction::Transfer(Transfer::Pop(Rp1::at(first % 8)))),
        0xA5..=0xA7 => Ok(Instruction::Transfer(Transfer::DmovToEa(Rp3::at(first % 4)))),
        0xA8 => Ok(Instruction::Arithmetic(Arithmetic::Inx(Rp2::Ea))),
        0xA9 => Ok(Instruction::Arithmetic(Arithmetic::Dcx(Rp2::Ea))),
        0xAA => Ok(Instruction::Control(Control::Ei)),
        0xAB..=0xAF => Ok(Instruction::Transfer(Transfer::Ldax(Rpa2::at(first % 16)))),
        0xB0..=0xB4 => Ok(Instruction::Transfer(Transfer::Push(Rp1::at(first % 8)))),
        0xB5..=0xB7 => Ok(Instruction::Transfer(Transfer::DmovFromEa(Rp3::at(first % 4)))),
        0xB8 => Ok(Instruction::Jump(Jump::Ret)),
        0xB9 => Ok(Instruction::Jump(Jump::Rets)),
        0xBA => Ok(Instruction::Control(Control::Di)),
        0xBB..=0xBF => Ok(Instruction::Transfer(Transfer::Stax(Rpa2::at(first % 16)))),
        0xC0..=0xFF => Ok(Instruction::Jump(Jump::Jr(first % 64))),
    }
}
