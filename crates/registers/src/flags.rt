// The flags, and the program status word as a byte.
ghost use Rattle.registers.specs.Numbering.{TakesFlags};
ghost use Rattle.registers.specs.Psw.{IsByteOf, AreFlagsOf};

use crate::fault::RegisterFault;

/// Z, SK, HC, L1, L0 and CY.
#[derive(Clone, Copy, PartialEq, Eq, Debug, Default)]
pub struct Flags {
    pub zero: bool,
    pub skip: bool,
    pub half: bool,
    pub l1: bool,
    pub l0: bool,
    pub carry: bool,
}

/// The byte of the flags, bits 7 and 1 zero.
impl From<Flags> for u8 {
    ghost from_gives = { IsByteOf };

    fn from(flags: Flags) -> u8 {
        64 * u8::from(flags.zero)
            + 32 * u8::from(flags.skip)
            + 16 * u8::from(flags.half)
            + 8 * u8::from(flags.l1)
            + 4 * u8::from(flags.l0)
            + u8::from(flags.carry)
    }
}

/// The flags of a byte; its bits 7 and 1 are left out.
impl From<u8> for Flags {
    ghost from_gives = { AreFlagsOf };

    fn from(byte: u8) -> Flags {
        Flags {
            zero: byte / 64 % 2 == 1,
            skip: byte / 32 % 2 == 1,
            half: byte / 16 % 2 == 1,
            l1: byte / 8 % 2 == 1,
            l0: byte / 4 % 2 == 1,
            carry: byte % 2 == 1,
        }
    }
}

/// The flags of a value set by number, which a bit that is no flag refuses.
impl TryFrom<u32> for Flags {
    type Error = RegisterFault;

    ghost try_from_gives = { TakesFlags };

    fn try_from(value: u32) -> Result<Flags, RegisterFault> {
        if value < 128 && value / 2 % 2 == 0 {
            Ok(Flags::from(value as u8))
        } else {
            Err(RegisterFault::ValueOutOfRange)
        }
    }
}
