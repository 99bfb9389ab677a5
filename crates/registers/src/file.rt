// The register file, and its registers by name and number.
ghost use Rattle.std.specs.Prelude.{◌≡◌, ok_or};
ghost use Rattle.registers.specs.Answers.{answer_of, left_by};
ghost use Rattle.registers.specs.Numbering.{named, value_of, storing};
ghost use Rattle.registers.specs.declared.fault.RegisterFault.TheVariants.{NoSuchRegister};

use crate::bank::{Bank, ByteRegister};
use crate::fault::RegisterFault;
use crate::flags::Flags;

#[derive(Clone, Copy, PartialEq, Eq, Debug)]
pub enum RegisterName {
    Main(ByteRegister),
    Alternate(ByteRegister),
    Ea,
    EaAlternate,
    Sp,
    Pc,
    Psw,
}

/// The register of a number, 0 to 20.
impl TryFrom<u32> for RegisterName {
    type Error = RegisterFault;

    ghost try_from_gives = { λ number r. r ≡ ok_or (named number) NoSuchRegister };

    fn try_from(number: u32) -> Result<RegisterName, RegisterFault> {
        match number {
            0..=7 => Ok(RegisterName::Main(ByteRegister::of_code(number as u8))),
            8..=15 => Ok(RegisterName::Alternate(ByteRegister::of_code(number as u8))),
            16 => Ok(RegisterName::Ea),
            17 => Ok(RegisterName::EaAlternate),
            18 => Ok(RegisterName::Sp),
            19 => Ok(RegisterName::Pc),
            20 => Ok(RegisterName::Psw),
            _ => Err(RegisterFault::NoSuchRegister),
        }
    }
}

#[derive(Clone, Copy, PartialEq, Eq, Debug, Default)]
pub struct Registers {
    pub main: Bank,
    pub alternate: Bank,
    pub ea: u16,
    pub ea_alternate: u16,
    pub sp: u16,
    pub pc: u16,
    pub flags: Flags,
}

impl Registers {
    /// The value of a register; of the PSW its byte.
    pub fn get(&self, name: RegisterName) -> u16
        ensures { result ≡ value_of name self.now }
    {
        match name {
            RegisterName::Main(register) => u16::from(self.main.get(register)),
            RegisterName::Alternate(register) => u16::from(self.alternate.get(register)),
            RegisterName::Ea => self.ea,
            RegisterName::EaAlternate => self.ea_alternate,
            RegisterName::Sp => self.sp,
            RegisterName::Pc => self.pc,
            RegisterName::Psw => u16::from(u8::from(self.flags)),
        }
    }

    /// Sets a register, unless it does not take the value.
    pub fn set(&mut self, name: RegisterName, value: u32) -> Result<(), RegisterFault>
        ensures answer { result ≡ answer_of (storing name value self.old) }
        ensures after { self.new ≡ left_by (storing name value self.old) self.old }
    {
        match name {
            RegisterName::Main(register) => self.main.set(register, u8::try_from(value)?),
            RegisterName::Alternate(register) => self.alternate.set(register, u8::try_from(value)?),
            RegisterName::Ea => self.ea = u16::try_from(value)?,
            RegisterName::EaAlternate => self.ea_alternate = u16::try_from(value)?,
            RegisterName::Sp => self.sp = u16::try_from(value)?,
            RegisterName::Pc => self.pc = u16::try_from(value)?,
            RegisterName::Psw => self.flags = Flags::try_from(value)?,
        }
        Ok(())
    }
}
