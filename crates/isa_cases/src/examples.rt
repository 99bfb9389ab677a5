// Codes and their instructions: worked examples, and each kind of instruction once or twice.
use alu::Operation;
use isa::{
    Arithmetic, Control, Flag, Instruction, Jump, R1, R2, Rp, Rp1, Rp2, Rp3, Rpa2, Rpa3, Special,
    Transfer, decode,
};
use isa_laws::is_code_of;
use lines::Line;
use registers::bank::ByteRegister;
use std::process::Abort;

// A first and a second byte, and the instruction that they decode to.
fn decodes(rt: &impl Abort, examples: &[(u8, u8, Instruction)]) {
    for (first, second, instruction) in examples {
        assert!(rt; is_code_of(*instruction, *first, *second));
        assert_eq!(rt; decode(*first, *second), Ok(*instruction));
    }
}

#[test]
fn worked(rt: HostRuntime) {
    decodes(
        &rt,
        &[
            // DCX H
            (
                0x33,
                0x00,
                Instruction::Arithmetic(Arithmetic::Dcx(Rp2::Hl)),
            ),
            // STAX D+
            (
                0x3C,
                0x00,
                Instruction::Transfer(Transfer::Stax(Rpa2::DeUp)),
            ),
            // ADDX H-
            (
                0x70,
                0xC7,
                Instruction::Arithmetic(Arithmetic::OperateX(Operation::Add, Rpa2::HlDown)),
            ),
            // STEAX H++
            (
                0x48,
                0x95,
                Instruction::Transfer(Transfer::Steax(Rpa3::HlUpTwo)),
            ),
            // DCRW wa
            (0x30, 0x77, Instruction::Arithmetic(Arithmetic::Dcrw)),
            // ADI A,byte
            (
                0x46,
                0x79,
                Instruction::Arithmetic(Arithmetic::OperateByte(Operation::Add)),
            ),
            // LXI H,word
            (0x34, 0x54, Instruction::Transfer(Transfer::Lxi(Rp2::Hl))),
            // SDED word
            (0x70, 0x2E, Instruction::Transfer(Transfer::StoreRp(Rp::De))),
        ],
    )
}

#[test]
fn byte_transfer(rt: HostRuntime) {
    decodes(
        &rt,
        &[
            // MOV E,A
            (0x1D, 0x00, Instruction::Transfer(Transfer::MovToR1(R1::E))),
            // MOV A,B
            (
                0x0A,
                0x00,
                Instruction::Transfer(Transfer::MovFromR1(R1::B)),
            ),
            // MOV TMM,A
            (0x4D, 0xCD, Instruction::Special(Special::MovToSr(13))),
            // MOV A,PB
            (0x4C, 0xC1, Instruction::Special(Special::MovFromSr1(1))),
            // MOV A,word
            (
                0x70,
                0x69,
                Instruction::Transfer(Transfer::MovLoad(ByteRegister::A)),
            ),
            // MOV word,A
            (
                0x70,
                0x79,
                Instruction::Transfer(Transfer::MovStore(ByteRegister::A)),
            ),
            // MVI E,byte
            (
                0x6D,
                0x00,
                Instruction::Transfer(Transfer::Mvi(ByteRegister::E)),
            ),
            // MVI EOM,byte
            (0x64, 0x83, Instruction::Special(Special::MviSr2(11))),
            // MVIW wa,byte
            (0x71, 0x00, Instruction::Transfer(Transfer::Mviw)),
            // MVIX B,byte
            (0x49, 0x00, Instruction::Transfer(Transfer::Mvix(Rp3::Bc))),
            // STAW wa
            (0x63, 0x00, Instruction::Transfer(Transfer::Staw)),
            // LDAW wa
            (0x01, 0x00, Instruction::Transfer(Transfer::Ldaw)),
            // STAX H+A
            (0xBC, 0x00, Instruction::Transfer(Transfer::Stax(Rpa2::HlA))),
            // LDAX D+
            (
                0x2C,
                0x00,
                Instruction::Transfer(Transfer::Ldax(Rpa2::DeUp)),
            ),
            // EXX
            (0x11, 0x00, Instruction::Transfer(Transfer::Exx)),
            // EXA
            (0x10, 0x00, Instruction::Transfer(Transfer::Exa)),
            // EXH
            (0x50, 0x00, Instruction::Transfer(Transfer::Exh)),
            // BLOCK
            (0x31, 0x00, Instruction::Transfer(Transfer::Block)),
        ],
    )
}

#[test]
fn word_transfer(rt: HostRuntime) {
    decodes(
        &rt,
        &[
            // DMOV B,EA
            (
                0xB5,
                0x00,
                Instruction::Transfer(Transfer::DmovFromEa(Rp3::Bc)),
            ),
            // DMOV H,EA
            (
                0xB7,
                0x00,
                Instruction::Transfer(Transfer::DmovFromEa(Rp3::Hl)),
            ),
            // DMOV EA,B
            (
                0xA5,
                0x00,
                Instruction::Transfer(Transfer::DmovToEa(Rp3::Bc)),
            ),
            // DMOV EA,H
            (
                0xA7,
                0x00,
                Instruction::Transfer(Transfer::DmovToEa(Rp3::Hl)),
            ),
            // SSPD word
            (0x70, 0x0E, Instruction::Transfer(Transfer::StoreRp(Rp::Sp))),
            // SHLD word
            (0x70, 0x3E, Instruction::Transfer(Transfer::StoreRp(Rp::Hl))),
            // LSPD word
            (0x70, 0x0F, Instruction::Transfer(Transfer::LoadRp(Rp::Sp))),
            // LHLD word
            (0x70, 0x3F, Instruction::Transfer(Transfer::LoadRp(Rp::Hl))),
            // STEAX D
            (0x48, 0x92, Instruction::Transfer(Transfer::Steax(Rpa3::De))),
            // STEAX H+byte
            (
                0x48,
                0x9F,
                Instruction::Transfer(Transfer::Steax(Rpa3::HlByte)),
            ),
            // LDEAX D
            (0x48, 0x82, Instruction::Transfer(Transfer::Ldeax(Rpa3::De))),
            // LDEAX H+byte
            (
                0x48,
                0x8F,
                Instruction::Transfer(Transfer::Ldeax(Rpa3::HlByte)),
            ),
            // PUSH V
            (0xB0, 0x00, Instruction::Transfer(Transfer::Push(Rp1::Va))),
            // PUSH EA
            (0xB4, 0x00, Instruction::Transfer(Transfer::Push(Rp1::Ea))),
            // POP V
            (0xA0, 0x00, Instruction::Transfer(Transfer::Pop(Rp1::Va))),
            // POP EA
            (0xA4, 0x00, Instruction::Transfer(Transfer::Pop(Rp1::Ea))),
            // LXI SP,word
            (0x04, 0x00, Instruction::Transfer(Transfer::Lxi(Rp2::Sp))),
            // LXI EA,word
            (0x44, 0x00, Instruction::Transfer(Transfer::Lxi(Rp2::Ea))),
            // TABLE
            (0x48, 0xA8, Instruction::Transfer(Transfer::Table)),
        ],
    )
}

#[test]
fn operations(rt: HostRuntime) {
    decodes(
        &rt,
        &[
            // ANA A,V
            (
                0x60,
                0x88,
                Instruction::Arithmetic(Arithmetic::OperateA(Operation::And, ByteRegister::V)),
            ),
            // EQA A,L
            (
                0x60,
                0xFF,
                Instruction::Arithmetic(Arithmetic::OperateA(Operation::Equal, ByteRegister::L)),
            ),
            // ANA V,A
            (
                0x60,
                0x08,
                Instruction::Arithmetic(Arithmetic::OperateR(Operation::And, ByteRegister::V)),
            ),
            // EQA L,A
            (
                0x60,
                0x7F,
                Instruction::Arithmetic(Arithmetic::OperateR(Operation::Equal, ByteRegister::L)),
            ),
            // ANAX B
            (
                0x70,
                0x89,
                Instruction::Arithmetic(Arithmetic::OperateX(Operation::And, Rpa2::Bc)),
            ),
            // EQAX H-
            (
                0x70,
                0xFF,
                Instruction::Arithmetic(Arithmetic::OperateX(Operation::Equal, Rpa2::HlDown)),
            ),
            // ANI A,byte
            (
                0x07,
                0x00,
                Instruction::Arithmetic(Arithmetic::OperateByte(Operation::And)),
            ),
            // EQI A,byte
            (
                0x77,
                0x00,
                Instruction::Arithmetic(Arithmetic::OperateByte(Operation::Equal)),
            ),
            // ANI V,byte
            (
                0x74,
                0x08,
                Instruction::Arithmetic(Arithmetic::OperateRByte(Operation::And, ByteRegister::V)),
            ),
            // EQI L,byte
            (
                0x74,
                0x7F,
                Instruction::Arithmetic(Arithmetic::OperateRByte(
                    Operation::Equal,
                    ByteRegister::L,
                )),
            ),
            // ANI PA,byte
            (
                0x64,
                0x08,
                Instruction::Special(Special::OperateSr2(Operation::And, 0)),
            ),
            // EQI TMM,byte
            (
                0x64,
                0xFD,
                Instruction::Special(Special::OperateSr2(Operation::Equal, 13)),
            ),
            // ANAW wa
            (
                0x74,
                0x88,
                Instruction::Arithmetic(Arithmetic::OperateW(Operation::And)),
            ),
            // EQAW wa
            (
                0x74,
                0xF8,
                Instruction::Arithmetic(Arithmetic::OperateW(Operation::Equal)),
            ),
            // ANIW wa,byte
            (
                0x05,
                0x00,
                Instruction::Arithmetic(Arithmetic::OperateWByte(Operation::And)),
            ),
            // EQIW wa,byte
            (
                0x75,
                0x00,
                Instruction::Arithmetic(Arithmetic::OperateWByte(Operation::Equal)),
            ),
            // DAN EA,B
            (
                0x74,
                0x8D,
                Instruction::Arithmetic(Arithmetic::OperateEa(Operation::And, Rp3::Bc)),
            ),
            // DEQ EA,H
            (
                0x74,
                0xFF,
                Instruction::Arithmetic(Arithmetic::OperateEa(Operation::Equal, Rp3::Hl)),
            ),
        ],
    )
}

#[test]
fn arithmetic(rt: HostRuntime) {
    decodes(
        &rt,
        &[
            // EADD EA,A
            (0x70, 0x41, Instruction::Arithmetic(Arithmetic::Eadd(R2::A))),
            // ESUB EA,A
            (0x70, 0x61, Instruction::Arithmetic(Arithmetic::Esub(R2::A))),
            // MUL B
            (0x48, 0x2E, Instruction::Arithmetic(Arithmetic::Mul(R2::B))),
            // DIV B
            (0x48, 0x3E, Instruction::Arithmetic(Arithmetic::Div(R2::B))),
            // INR A
            (0x41, 0x00, Instruction::Arithmetic(Arithmetic::Inr(R2::A))),
            // DCR A
            (0x51, 0x00, Instruction::Arithmetic(Arithmetic::Dcr(R2::A))),
            // INRW wa
            (0x20, 0x00, Instruction::Arithmetic(Arithmetic::Inrw)),
            // DCRW wa
            (0x30, 0x00, Instruction::Arithmetic(Arithmetic::Dcrw)),
            // INX SP
            (
                0x02,
                0x00,
                Instruction::Arithmetic(Arithmetic::Inx(Rp2::Sp)),
            ),
            // DCX EA
            (
                0xA9,
                0x00,
                Instruction::Arithmetic(Arithmetic::Dcx(Rp2::Ea)),
            ),
            // DAA
            (0x61, 0x00, Instruction::Arithmetic(Arithmetic::Daa)),
            // STC
            (0x48, 0x2B, Instruction::Arithmetic(Arithmetic::Stc)),
            // CLC
            (0x48, 0x2A, Instruction::Arithmetic(Arithmetic::Clc)),
            // NEGA
            (0x48, 0x3A, Instruction::Arithmetic(Arithmetic::Nega)),
        ],
    )
}

#[test]
fn shifts(rt: HostRuntime) {
    decodes(
        &rt,
        &[
            // RLD
            (0x48, 0x38, Instruction::Arithmetic(Arithmetic::Rld)),
            // RRD
            (0x48, 0x39, Instruction::Arithmetic(Arithmetic::Rrd)),
            // RLL B
            (0x48, 0x36, Instruction::Arithmetic(Arithmetic::Rll(R2::B))),
            // RLR A
            (0x48, 0x31, Instruction::Arithmetic(Arithmetic::Rlr(R2::A))),
            // SLL C
            (0x48, 0x27, Instruction::Arithmetic(Arithmetic::Sll(R2::C))),
            // SLR A
            (0x48, 0x21, Instruction::Arithmetic(Arithmetic::Slr(R2::A))),
            // SLLC A
            (0x48, 0x05, Instruction::Arithmetic(Arithmetic::Sllc(R2::A))),
            // SLRC C
            (0x48, 0x03, Instruction::Arithmetic(Arithmetic::Slrc(R2::C))),
            // DRLL EA
            (0x48, 0xB4, Instruction::Arithmetic(Arithmetic::Drll)),
            // DRLR EA
            (0x48, 0xB0, Instruction::Arithmetic(Arithmetic::Drlr)),
            // DSLL EA
            (0x48, 0xA4, Instruction::Arithmetic(Arithmetic::Dsll)),
            // DSLR EA
            (0x48, 0xA0, Instruction::Arithmetic(Arithmetic::Dslr)),
        ],
    )
}

#[test]
fn jumps(rt: HostRuntime) {
    decodes(
        &rt,
        &[
            // JMP word
            (0x54, 0x00, Instruction::Jump(Jump::Jmp)),
            // JB
            (0x21, 0x00, Instruction::Jump(Jump::Jb)),
            // JR jdisp +7
            (0xC7, 0x00, Instruction::Jump(Jump::Jr(7))),
            // JRE jdisp
            (0x4E, 0x00, Instruction::Jump(Jump::JreForward)),
            // JRE jdisp-256
            (0x4F, 0x00, Instruction::Jump(Jump::JreBackward)),
            // JEA
            (0x48, 0x28, Instruction::Jump(Jump::Jea)),
            // CALL word
            (0x40, 0x00, Instruction::Jump(Jump::Call)),
            // CALB
            (0x48, 0x29, Instruction::Jump(Jump::Calb)),
            // CALF 0E00H+byte
            (0x7E, 0x00, Instruction::Jump(Jump::Calf(6))),
            // CALT 0086H
            (0x83, 0x00, Instruction::Jump(Jump::Calt(3))),
            // SOFTI
            (0x72, 0x00, Instruction::Jump(Jump::Softi)),
            // RET
            (0xB8, 0x00, Instruction::Jump(Jump::Ret)),
            // RETS
            (0xB9, 0x00, Instruction::Jump(Jump::Rets)),
            // RETI
            (0x62, 0x00, Instruction::Jump(Jump::Reti)),
        ],
    )
}

#[test]
fn tests_and_control(rt: HostRuntime) {
    decodes(
        &rt,
        &[
            // BIT 0,wa
            (0x58, 0x00, Instruction::Control(Control::Bit(0))),
            // BIT 7,wa
            (0x5F, 0x00, Instruction::Control(Control::Bit(7))),
            // SK CY
            (0x48, 0x0A, Instruction::Control(Control::Sk(Flag::Carry))),
            // SK Z
            (0x48, 0x0C, Instruction::Control(Control::Sk(Flag::Zero))),
            // SKN CY
            (0x48, 0x1A, Instruction::Control(Control::Skn(Flag::Carry))),
            // SKN Z
            (0x48, 0x1C, Instruction::Control(Control::Skn(Flag::Zero))),
            // SKIT NMI
            (0x48, 0x40, Instruction::Control(Control::Skit(Line::Nmi))),
            // SKIT FST
            (0x48, 0x4A, Instruction::Control(Control::Skit(Line::Fst))),
            // SKNIT NMI
            (0x48, 0x60, Instruction::Control(Control::Sknit(Line::Nmi))),
            // SKNIT FST
            (0x48, 0x6A, Instruction::Control(Control::Sknit(Line::Fst))),
            // NOP
            (0x00, 0x00, Instruction::Control(Control::Nop)),
            // EI
            (0xAA, 0x00, Instruction::Control(Control::Ei)),
            // DI
            (0xBA, 0x00, Instruction::Control(Control::Di)),
            // HLT
            (0x48, 0x3B, Instruction::Control(Control::Hlt)),
        ],
    )
}
