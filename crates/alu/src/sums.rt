// Two operands of a width, their sum and their difference, with HC and CY.
ghost use Rattle.std.specs.Prelude.{◌≡◌, ◌<◌, ◌%◌};
ghost use Rattle.alu.specs.Sums.{sum, difference, carried};
ghost use Rattle.alu.specs.Widths.{whole};

use crate::width::Width;
use registers::flags::Flags;

#[derive(Clone, Copy)]
pub(crate) struct Operands {
    pub(crate) width: Width,
    pub(crate) a: u16,
    pub(crate) b: u16,
    ghost a_fits: { a < whole width },
    ghost b_fits: { b < whole width },
}

impl Operands {
    // The low bits of two numbers.
    pub(crate) fn low(width: Width, a: u16, b: u16) -> Operands
        ensures width { result.width ≡ width }
        ensures a { result.a ≡ a % whole width }
        ensures b { result.b ≡ b % whole width }
    {
        Operands {
            width,
            a: width.low(a),
            b: width.low(b),
        }
    }

    pub(crate) fn bytes(a: u8, b: u8) -> Operands
        ensures width { result.width ≡ Width.Byte }
        ensures a { result.a ≡ a }
        ensures b { result.b ≡ b }
    {
        Operands {
            width: Width::Byte,
            a: u16::from(a),
            b: u16::from(b),
        }
    }

    // The sum, with a carry in.
    pub(crate) fn add(self, carry: bool, flags: &mut Flags) -> u16
        ensures value { result ≡ (sum self.width self.a self.b carry).value }
        ensures after { flags.new ≡ carried (sum self.width self.a self.b carry) flags.old }
    {
        let modulus = self.width.modulus();
        let part = self.width.half_place();
        let (a, b, c) = (u32::from(self.a), u32::from(self.b), u32::from(carry));
        let total = a + b + c;
        flags.half = part <= a % part + b % part + c;
        flags.carry = modulus <= total;
        (total % modulus) as u16
    }

    // The difference, with a borrow in.
    pub(crate) fn subtract(self, borrow: bool, flags: &mut Flags) -> u16
        ensures value { result ≡ (difference self.width self.a self.b borrow).value }
        ensures after { flags.new ≡ carried (difference self.width self.a self.b borrow) flags.old }
    {
        let modulus = self.width.modulus();
        let part = self.width.half_place();
        let (a, b, c) = (u32::from(self.a), u32::from(self.b), u32::from(borrow));
        flags.half = a % part < b % part + c;
        flags.carry = a < b + c;
        ((a + modulus - (b + c)) % modulus) as u16
    }
}
