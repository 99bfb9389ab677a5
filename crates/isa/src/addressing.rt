// What an addressing does with the pair that it names.
ghost use Rattle.std.specs.Prelude.{◌≡◌, Bool, true};
ghost use Rattle.std.proofs.Common.{rules};
ghost use Rattle.isa.specs.Costs.{rpa2_takes_byte, rpa3_takes_byte, rpa2_adds, rpa3_adds};

use crate::operands::{Rpa2, Rpa3};

// Each impl is the table of its own type: the two name different addressings.
pub(crate) trait Addressing {
    ghost with_byte: { Self → Bool };

    ghost adding: { Self → Bool };

    // Whether a byte behind the opcode is part of it.
    fn takes_byte(self) -> bool
        ensures { result ≡ with_byte self };

    // Whether it adds something to the pair.
    fn adds(self) -> bool
        ensures { result ≡ adding self };

    // A byte is there to be added.
    ghost byte_is_added: { (x : Self) → with_byte x ≡ true → adding x ≡ true };
}

impl Addressing for Rpa2 {
    ghost with_byte = { rpa2_takes_byte };

    ghost adding = { rpa2_adds };

    ghost byte_is_added = { Prim.search rules };

    fn takes_byte(self) -> bool {
        matches!(self, Rpa2::DeByte | Rpa2::HlByte)
    }

    fn adds(self) -> bool {
        matches!(
            self,
            Rpa2::DeByte | Rpa2::HlA | Rpa2::HlB | Rpa2::HlEa | Rpa2::HlByte
        )
    }
}

impl Addressing for Rpa3 {
    ghost with_byte = { rpa3_takes_byte };

    ghost adding = { rpa3_adds };

    ghost byte_is_added = { Prim.search rules };

    fn takes_byte(self) -> bool {
        matches!(self, Rpa3::DeByte | Rpa3::HlByte)
    }

    fn adds(self) -> bool {
        matches!(
            self,
            Rpa3::DeByte | Rpa3::HlA | Rpa3::HlB | Rpa3::HlEa | Rpa3::HlByte
        )
    }
}
