// The operands that an opcode names, each with its code there: registers, pairs, addressings and flags.
ghost use Rattle.std.specs.Prelude.{◌≡◌};
ghost use Rattle.isa.specs.Operands.{r2_register};

use registers::bank::ByteRegister;

/// r1: a byte of EA or one of B to L.
#[derive(Clone, Copy, PartialEq, Eq, Debug)]
pub enum R1 {
    Eah = 0,
    Eal = 1,
    B = 2,
    C = 3,
    D = 4,
    E = 5,
    H = 6,
    L = 7,
}

/// r2: A, B or C.
#[derive(Clone, Copy, PartialEq, Eq, Debug)]
pub enum R2 {
    A = 1,
    B = 2,
    C = 3,
}

/// rp: SP, BC, DE or HL.
#[derive(Clone, Copy, PartialEq, Eq, Debug)]
pub enum Rp {
    Sp = 0,
    Bc = 1,
    De = 2,
    Hl = 3,
}

/// rp1: what PUSH and POP name.
#[derive(Clone, Copy, PartialEq, Eq, Debug)]
pub enum Rp1 {
    Va = 0,
    Bc = 1,
    De = 2,
    Hl = 3,
    Ea = 4,
}

/// rp2: rp or EA.
#[derive(Clone, Copy, PartialEq, Eq, Debug)]
pub enum Rp2 {
    Sp = 0,
    Bc = 1,
    De = 2,
    Hl = 3,
    Ea = 4,
}

/// rp3: BC, DE or HL.
#[derive(Clone, Copy, PartialEq, Eq, Debug)]
pub enum Rp3 {
    Bc = 1,
    De = 2,
    Hl = 3,
}

/// rpa2: the twelve addressings of a byte.
#[derive(Clone, Copy, PartialEq, Eq, Debug)]
pub enum Rpa2 {
    Bc = 1,
    De = 2,
    Hl = 3,
    /// DE, then one more.
    DeUp = 4,
    /// HL, then one more.
    HlUp = 5,
    /// DE, then one less.
    DeDown = 6,
    /// HL, then one less.
    HlDown = 7,
    /// DE + byte.
    DeByte = 11,
    /// HL + A.
    HlA = 12,
    /// HL + B.
    HlB = 13,
    /// HL + EA.
    HlEa = 14,
    /// HL + byte.
    HlByte = 15,
}

/// rpa3: the nine addressings of a word.
#[derive(Clone, Copy, PartialEq, Eq, Debug)]
pub enum Rpa3 {
    De = 2,
    Hl = 3,
    /// DE, then two more.
    DeUpTwo = 4,
    /// HL, then two more.
    HlUpTwo = 5,
    /// DE + byte.
    DeByte = 11,
    /// HL + A.
    HlA = 12,
    /// HL + B.
    HlB = 13,
    /// HL + EA.
    HlEa = 14,
    /// HL + byte.
    HlByte = 15,
}

/// f: the flags that can be tested.
#[derive(Clone, Copy, PartialEq, Eq, Debug)]
pub enum Flag {
    Carry = 2,
    Half = 3,
    Zero = 4,
}

impl From<R2> for ByteRegister {
    ghost from_gives = { λ r2 register. register ≡ r2_register r2 };

    fn from(r2: R2) -> ByteRegister {
        match r2 {
            R2::A => ByteRegister::A,
            R2::B => ByteRegister::B,
            R2::C => ByteRegister::C,
        }
    }
}
