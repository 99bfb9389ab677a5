// The registers that r1 names.
ghost use Rattle.std.specs.Prelude.{◌≡◌};
ghost use Rattle.machine.specs.Operands.{r1_in, with_r1};

use isa::R1;
use registers::file::Registers;

pub(crate) fn get_r1(registers: &Registers, r1: R1) -> u8
    ensures { result ≡ r1_in r1 registers.now }
{
    let [high, low] = registers.ea.to_be_bytes();
    match r1 {
        R1::Eah => high,
        R1::Eal => low,
        R1::B => registers.main.b,
        R1::C => registers.main.c,
        R1::D => registers.main.d,
        R1::E => registers.main.e,
        R1::H => registers.main.h,
        R1::L => registers.main.l,
    }
}

pub(crate) fn set_r1(registers: &mut Registers, r1: R1, byte: u8)
    ensures { registers.new ≡ with_r1 r1 byte registers.old }
{
    let [high, low] = registers.ea.to_be_bytes();
    match r1 {
        R1::Eah => registers.ea = u16::from_be_bytes([byte, low]),
        R1::Eal => registers.ea = u16::from_be_bytes([high, byte]),
        R1::B => registers.main.b = byte,
        R1::C => registers.main.c = byte,
        R1::D => registers.main.d = byte,
        R1::E => registers.main.e = byte,
        R1::H => registers.main.h = byte,
        R1::L => registers.main.l = byte,
    }
}
