// The bits of a width, moved by one place.
ghost use Rattle.std.specs.Prelude.{◌≡◌, ◌<◌, ◌%◌};
ghost use Rattle.alu.specs.Shifts.{rightward, leftward, with_carry};
ghost use Rattle.alu.specs.Widths.{whole};

use crate::width::Width;
use registers::flags::Flags;

#[derive(Clone, Copy)]
pub(crate) struct Bits {
    width: Width,
    value: u16,
    ghost fits: { value < whole width },
}

impl Bits {
    // The low bits of a number.
    pub(crate) fn low(width: Width, value: u16) -> Bits
        ensures width { result.width ≡ width }
        ensures value { result.value ≡ value % whole width }
    {
        Bits {
            width,
            value: width.low(value),
        }
    }

    // One place to the right, with a bit in at the top; bit 0 goes out. The two ways are two formulas, and no constant tells them apart.
    pub(crate) fn right(self, bit: bool, flags: &mut Flags) -> u16
        ensures value { result ≡ (rightward self.width self.value bit).moved }
        ensures bound { result < whole self.width }
        ensures after { flags.new ≡ with_carry (rightward self.width self.value bit).out flags.old }
    {
        let top = if bit { self.width.modulus() / 2 } else { 0 };
        flags.carry = self.value % 2 == 1;
        (u32::from(self.value) / 2 + top) as u16
    }

    // One place to the left, with a bit in at the bottom; the top bit goes out.
    pub(crate) fn left(self, bit: bool, flags: &mut Flags) -> u16
        ensures value { result ≡ (leftward self.width self.value bit).moved }
        ensures after { flags.new ≡ with_carry (leftward self.width self.value bit).out flags.old }
    {
        let modulus = self.width.modulus();
        let value = u32::from(self.value);
        flags.carry = modulus / 2 <= value;
        ((2 * value + u32::from(bit)) % modulus) as u16
    }
}
