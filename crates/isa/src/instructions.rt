// An instruction, by families, with the operands that its opcode names; the bytes behind the opcode are not part of it.
use crate::operands::{Flag, R1, R2, Rp, Rp1, Rp2, Rp3, Rpa2, Rpa3};
use alu::Operation;
use lines::Line;
use registers::bank::ByteRegister;

/// Each family is executed apart.
#[derive(Clone, Copy, PartialEq, Eq, Debug)]
pub enum Instruction {
    Transfer(Transfer),
    Arithmetic(Arithmetic),
    Jump(Jump),
    Special(Special),
    Control(Control),
}

/// Transfers between registers and memory.
#[derive(Clone, Copy, PartialEq, Eq, Debug)]
pub enum Transfer {
    /// MOV r1,A.
    MovToR1(R1),
    /// MOV A,r1.
    MovFromR1(R1),
    /// MOV r,word.
    MovLoad(ByteRegister),
    /// MOV word,r.
    MovStore(ByteRegister),
    /// MVI r,byte.
    Mvi(ByteRegister),
    /// MVIW wa,byte.
    Mviw,
    /// MVIX rpa1,byte: the pair holds the address.
    Mvix(Rp3),
    /// STAW wa.
    Staw,
    /// LDAW wa.
    Ldaw,
    /// STAX rpa2.
    Stax(Rpa2),
    /// LDAX rpa2.
    Ldax(Rpa2),
    /// EXX.
    Exx,
    /// EXA.
    Exa,
    /// EXH.
    Exh,
    /// BLOCK.
    Block,
    /// DMOV rp3,EA.
    DmovFromEa(Rp3),
    /// DMOV EA,rp3.
    DmovToEa(Rp3),
    /// SSPD, SBCD, SDED, SHLD word.
    StoreRp(Rp),
    /// LSPD, LBCD, LDED, LHLD word.
    LoadRp(Rp),
    /// STEAX rpa3.
    Steax(Rpa3),
    /// LDEAX rpa3.
    Ldeax(Rpa3),
    /// PUSH rp1.
    Push(Rp1),
    /// POP rp1.
    Pop(Rp1),
    /// LXI rp2,word.
    Lxi(Rp2),
    /// TABLE.
    Table,
}

/// The fifteen operations and other arithmetic, shifts and rotates, on registers and memory.
#[derive(Clone, Copy, PartialEq, Eq, Debug)]
pub enum Arithmetic {
    /// A,r, as ADD A,r.
    OperateA(Operation, ByteRegister),
    /// r,A, as ADD r,A.
    OperateR(Operation, ByteRegister),
    /// rpa, as ADDX rpa: one of the first seven addressings.
    OperateX(Operation, Rpa2),
    /// A,byte, as ADI A,byte.
    OperateByte(Operation),
    /// r,byte, as ADI r,byte.
    OperateRByte(Operation, ByteRegister),
    /// wa, as ADDW wa.
    OperateW(Operation),
    /// wa,byte, as ANIW wa,byte.
    OperateWByte(Operation),
    /// EA,rp3, as DADD EA,rp3.
    OperateEa(Operation, Rp3),
    /// EADD EA,r2.
    Eadd(R2),
    /// ESUB EA,r2.
    Esub(R2),
    /// MUL r2.
    Mul(R2),
    /// DIV r2.
    Div(R2),
    /// INR r2.
    Inr(R2),
    /// DCR r2.
    Dcr(R2),
    /// INRW wa.
    Inrw,
    /// DCRW wa.
    Dcrw,
    /// INX rp, INX EA.
    Inx(Rp2),
    /// DCX rp, DCX EA.
    Dcx(Rp2),
    /// DAA.
    Daa,
    /// STC.
    Stc,
    /// CLC.
    Clc,
    /// NEGA.
    Nega,
    /// RLD.
    Rld,
    /// RRD.
    Rrd,
    /// RLL r2.
    Rll(R2),
    /// RLR r2.
    Rlr(R2),
    /// SLL r2.
    Sll(R2),
    /// SLR r2.
    Slr(R2),
    /// SLLC r2.
    Sllc(R2),
    /// SLRC r2.
    Slrc(R2),
    /// DRLL EA.
    Drll,
    /// DRLR EA.
    Drlr,
    /// DSLL EA.
    Dsll,
    /// DSLR EA.
    Dslr,
}

/// Jumps, calls and returns.
#[derive(Clone, Copy, PartialEq, Eq, Debug)]
pub enum Jump {
    /// JMP word.
    Jmp,
    /// JB.
    Jb,
    /// JR: six bits, signed.
    Jr(u8),
    /// JRE, its ninth bit 0.
    JreForward,
    /// JRE, its ninth bit 1.
    JreBackward,
    /// JEA.
    Jea,
    /// CALL word.
    Call,
    /// CALB.
    Calb,
    /// CALF: the high three bits of eleven.
    Calf(u8),
    /// CALT: the place in the table, 0 to 31.
    Calt(u8),
    /// SOFTI.
    Softi,
    /// RET.
    Ret,
    /// RETS.
    Rets,
    /// RETI.
    Reti,
}

/// Transfers and operations on special registers, by their codes.
#[derive(Clone, Copy, PartialEq, Eq, Debug)]
pub enum Special {
    /// MOV sr,A: the code of a special register, 0 to 63.
    MovToSr(u8),
    /// MOV A,sr1.
    MovFromSr1(u8),
    /// MVI sr2,byte.
    MviSr2(u8),
    /// sr2,byte, as ADI sr2,byte.
    OperateSr2(Operation, u8),
}

/// Tests and the modes of the core.
#[derive(Clone, Copy, PartialEq, Eq, Debug)]
pub enum Control {
    /// BIT bit,wa: the bit, 0 to 7.
    Bit(u8),
    /// SK f.
    Sk(Flag),
    /// SKN f.
    Skn(Flag),
    /// SKIT irf.
    Skit(Line),
    /// SKNIT irf.
    Sknit(Line),
    /// NOP.
    Nop,
    /// EI.
    Ei,
    /// DI.
    Di,
    /// HLT.
    Hlt,
}
