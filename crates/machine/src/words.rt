// The registers of 16 bits, and pairs of registers as words.
ghost use Rattle.std.specs.Prelude.{◌≡◌};
ghost use Rattle.machine.specs.Operands.{rp_word, rp1_word, rp2_word, rp3_word};

use isa::{Rp, Rp1, Rp2, Rp3};

/// What an instruction takes as a word. The register named first in a pair is the high byte.
#[derive(Clone, Copy, PartialEq, Eq, Debug)]
pub enum WordRegister {
    Va,
    Bc,
    De,
    Hl,
    Ea,
    Sp,
}

// Four types of operands, and so four conversions: a variant of one type says nothing of a variant of another.
impl From<Rp> for WordRegister {
    ghost from_gives = { λ rp word. word ≡ rp_word rp };

    fn from(rp: Rp) -> WordRegister {
        match rp {
            Rp::Sp => WordRegister::Sp,
            Rp::Bc => WordRegister::Bc,
            Rp::De => WordRegister::De,
            Rp::Hl => WordRegister::Hl,
        }
    }
}

impl From<Rp1> for WordRegister {
    ghost from_gives = { λ rp1 word. word ≡ rp1_word rp1 };

    fn from(rp1: Rp1) -> WordRegister {
        match rp1 {
            Rp1::Va => WordRegister::Va,
            Rp1::Bc => WordRegister::Bc,
            Rp1::De => WordRegister::De,
            Rp1::Hl => WordRegister::Hl,
            Rp1::Ea => WordRegister::Ea,
        }
    }
}

impl From<Rp2> for WordRegister {
    ghost from_gives = { λ rp2 word. word ≡ rp2_word rp2 };

    fn from(rp2: Rp2) -> WordRegister {
        match rp2 {
            Rp2::Sp => WordRegister::Sp,
            Rp2::Bc => WordRegister::Bc,
            Rp2::De => WordRegister::De,
            Rp2::Hl => WordRegister::Hl,
            Rp2::Ea => WordRegister::Ea,
        }
    }
}

impl From<Rp3> for WordRegister {
    ghost from_gives = { λ rp3 word. word ≡ rp3_word rp3 };

    fn from(rp3: Rp3) -> WordRegister {
        match rp3 {
            Rp3::Bc => WordRegister::Bc,
            Rp3::De => WordRegister::De,
            Rp3::Hl => WordRegister::Hl,
        }
    }
}
