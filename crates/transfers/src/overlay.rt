// Overlaid loads: of several in a row only the first takes effect.
ghost use Rattle.std.specs.Prelude.{◌≡◌};
ghost use Rattle.machine.specs.Registers.{with_overlay};

use registers::file::Registers;

/// Marks that a load of A went before by L1, and one of L or HL by L0.
pub(crate) fn mark_load(registers: &mut Registers, l1: bool, l0: bool)
    ensures { registers.new ≡ with_overlay l1 l0 registers.old }
{
    registers.flags.l1 = l1;
    registers.flags.l0 = l0;
}
