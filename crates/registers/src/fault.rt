// Why a register is not set or read.
ghost use Rattle.std.specs.Prelude.{◌≡◌, Some};
ghost use Rattle.registers.specs.Numbering.{fault_number, fault_text};
ghost use Rattle.registers.specs.declared.fault.RegisterFault.TheVariants.{ValueOutOfRange};

use std::error::Error;
use std::fmt;
use std::num::TryFromIntError;

#[derive(Clone, Copy, PartialEq, Eq, Debug)]
pub enum RegisterFault {
    /// The number is above 20.
    NoSuchRegister,
    /// More than the register holds, or a bit of the PSW that is no flag.
    ValueOutOfRange,
}

impl RegisterFault {
    /// The refusal's number. A method, since `u8::from(fault)` would not say what the byte counts.
    pub fn number(self) -> u8
        ensures { result ≡ fault_number self }
    {
        match self {
            RegisterFault::NoSuchRegister => 1,
            RegisterFault::ValueOutOfRange => 2,
        }
    }
}

impl fmt::Display for RegisterFault {
    ghost output = { λ fault. Some (fault_text fault) };

    fn fmt<W: fmt::Write>(&self, f: &mut fmt::Formatter<W>) -> fmt::Result {
        f.write_str(match self {
            RegisterFault::NoSuchRegister => "no register has this number",
            RegisterFault::ValueOutOfRange => "the register does not take this value",
        })
    }
}

impl Error for RegisterFault {}

/// A value too wide for a register.
impl From<TryFromIntError> for RegisterFault {
    ghost from_gives = { λ _ fault. fault ≡ ValueOutOfRange };

    fn from(_too_wide: TryFromIntError) -> RegisterFault {
        RegisterFault::ValueOutOfRange
    }
}
