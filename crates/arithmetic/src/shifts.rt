// Shifts and rotates of registers.
ghost use Rattle.std.specs.Prelude.{◌≡◌};
ghost use Rattle.machine.specs.Arithmetic.{register_shifted, register_shifted_skipping, ea_shifted};

use crate::changes::change_register;
use alu::{Shift, Width, shift_bits, shift_byte, shift_byte_and_skip};
use registers::bank::ByteRegister;
use registers::file::Registers;

/// RLL, RLR, SLL and SLR r2.
pub(crate) fn shift_register(registers: &mut Registers, shift: Shift, register: ByteRegister)
    ensures { registers.new ≡ register_shifted shift register registers.old }
{
    change_register(
        registers,
        register,
        |byte, flags| shift_byte(shift, byte, flags),
    );
}

/// SLLC and SLRC r2.
pub(crate) fn shift_register_and_skip(
    registers: &mut Registers,
    shift: Shift,
    register: ByteRegister,
)
    ensures { registers.new ≡ register_shifted_skipping shift register registers.old }
{
    change_register(
        registers,
        register,
        |byte, flags| shift_byte_and_skip(shift, byte, flags),
    );
}

/// DRLL, DRLR, DSLL and DSLR EA.
pub(crate) fn shift_ea(registers: &mut Registers, shift: Shift)
    ensures { registers.new ≡ ea_shifted shift registers.old }
{
    registers.ea = shift_bits(shift, Width::Word, registers.ea, &mut registers.flags);
}
