// Shifts and rotates by one bit.
ghost use Rattle.std.specs.Prelude.{◌≡◌, ◌<◌};
ghost use Rattle.alu.specs.Widths.{whole};
ghost use Rattle.alu.specs.Shifts.{shifted, with_carry, with_carry_and_skip};

use crate::bits::Bits;
use crate::width::Width;
use registers::flags::Flags;

#[derive(Clone, Copy, PartialEq, Eq, Debug)]
pub enum Shift {
    /// SLR and DSLR.
    Right,
    /// SLL and DSLL.
    Left,
    /// RLR and DRLR.
    RotateRight,
    /// RLL and DRLL.
    RotateLeft,
}

/// Moves the low bits of a value by one place. CY takes the bit that goes out, and no other flag is set; into a rotate comes CY, into a shift 0.
pub fn shift_bits(shift: Shift, width: Width, value: u16, flags: &mut Flags) -> u16
    ensures value { result ≡ (shifted shift width value flags.old.carry).moved }
    ensures bound { result < whole width }
    ensures after { flags.new ≡ with_carry (shifted shift width value flags.old.carry).out flags.old }
{
    let bits = Bits::low(width, value);
    match shift {
        Shift::Right => bits.right(false, flags),
        Shift::Left => bits.left(false, flags),
        Shift::RotateRight => bits.right(flags.carry, flags),
        Shift::RotateLeft => bits.left(flags.carry, flags),
    }
}

/// The bits of a byte moved by one place: the one above at its width, in its type.
pub fn shift_byte(shift: Shift, byte: u8, flags: &mut Flags) -> u8
    ensures value { result ≡ (shifted shift Width.Byte byte flags.old.carry).moved }
    ensures after { flags.new ≡ with_carry (shifted shift Width.Byte byte flags.old.carry).out flags.old }
{
    shift_bits(shift, Width::Byte, u16::from(byte), flags) as u8
}

/// The same, as SLRC and SLLC do it: SK is CY, so that a 1 that goes out skips.
pub fn shift_byte_and_skip(shift: Shift, byte: u8, flags: &mut Flags) -> u8
    ensures value { result ≡ (shifted shift Width.Byte byte flags.old.carry).moved }
    ensures after { flags.new ≡ with_carry_and_skip (shifted shift Width.Byte byte flags.old.carry).out flags.old }
{
    let moved = shift_byte(shift, byte, flags);
    flags.skip = flags.carry;
    moved
}
