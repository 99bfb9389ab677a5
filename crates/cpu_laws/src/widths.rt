// What the types of the registers say of their values.
ghost use Rattle.cpu_laws.specs.Widths.{Fitting};

use registers::file::Registers;

/// Takes the registers by value, since their types then say the widths that a law rests on.
pub(crate) fn measure(registers: Registers)
    ensures { Fitting registers }
{}
