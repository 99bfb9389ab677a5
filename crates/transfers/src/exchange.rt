// Exchanges with the alternate registers.
ghost use Rattle.std.specs.Prelude.{◌≡◌};
ghost use Rattle.machine.specs.Transfer.{b_to_l_exchanged, v_a_ea_exchanged, h_l_exchanged};

use registers::file::Registers;
use std::mem::swap;

/// EXX: B, C, D, E, H and L.
pub(crate) fn exchange_b_to_l(registers: &mut Registers)
    ensures { registers.new ≡ b_to_l_exchanged registers.old }
{
    swap(&mut registers.main.b, &mut registers.alternate.b);
    swap(&mut registers.main.c, &mut registers.alternate.c);
    swap(&mut registers.main.d, &mut registers.alternate.d);
    swap(&mut registers.main.e, &mut registers.alternate.e);
    swap(&mut registers.main.h, &mut registers.alternate.h);
    swap(&mut registers.main.l, &mut registers.alternate.l);
}

/// EXA: V, A and EA.
pub(crate) fn exchange_v_a_ea(registers: &mut Registers)
    ensures { registers.new ≡ v_a_ea_exchanged registers.old }
{
    swap(&mut registers.main.v, &mut registers.alternate.v);
    swap(&mut registers.main.a, &mut registers.alternate.a);
    swap(&mut registers.ea, &mut registers.ea_alternate);
}

/// EXH: H and L.
pub(crate) fn exchange_h_l(registers: &mut Registers)
    ensures { registers.new ≡ h_l_exchanged registers.old }
{
    swap(&mut registers.main.h, &mut registers.alternate.h);
    swap(&mut registers.main.l, &mut registers.alternate.l);
}
