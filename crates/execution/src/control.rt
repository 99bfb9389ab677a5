// Tests that skip, and the modes of the core.
// A function takes the part that it changes, registers, core or machine: the borrow says that the rest stays.
ghost use Rattle.std.specs.Prelude.{◌≡◌};
ghost use Rattle.machine.specs.Registers.{with_skip};
ghost use Rattle.machine.specs.Control.{bit_tested, flag_in, line_tested, enabled as ei_executed};
ghost use Rattle.machine.specs.Instructions.{controlled};
ghost use Rattle.machine.specs.Effects.{Runs};
ghost use Rattle.execution.specs.Wanted.{as_wanted};

use board::Board;
use isa::{Control, Flag};
use lines::Line;
use machine::Machine;
use operands::{data_byte, working_address};
use panel::Panel;
use registers::bench::Core;
use registers::file::Registers;
use registers::flags::Flags;

/// BIT bit,wa.
fn test_bit<B: Board>(registers: &mut Registers, board: &B, bit: u8)
    ensures { registers.new ≡ bit_tested bit (B.Board.cells board.now) registers.old }
{
    let wa = data_byte(registers, board);
    let cell = board.read(working_address(registers, wa));
    registers.flags.skip = (cell >> (bit % 8)) % 2 == 1;
}

fn is_set(flags: Flags, flag: Flag) -> bool
    ensures { result ≡ flag_in flag flags }
{
    match flag {
        Flag::Carry => flags.carry,
        Flag::Half => flags.half,
        Flag::Zero => flags.zero,
    }
}

/// SK f and SKN f.
fn skip_if_flag(registers: &mut Registers, flag: Flag, wanted: bool)
    ensures { registers.new ≡ with_skip (as_wanted wanted (flag_in flag registers.old.flags)) registers.old }
{
    registers.flags.skip = is_set(registers.flags, flag) == wanted;
}

/// SKIT irf and SKNIT irf.
fn skip_if_waiting<B: Board, P: Panel>(machine: &mut Machine<B, P>, line: Line, wanted: bool)
    ensures { Runs B.Board P.Panel (line_tested (as_wanted wanted) line) machine.old machine.new }
{
    let waits = machine.requests.test(line);
    machine.core.registers.flags.skip = waits == wanted;
}

/// EI.
fn enable(core: &mut Core)
    ensures { core.new ≡ ei_executed core.old }
{
    core.interrupts = true;
    core.after_ei = true;
}

pub(crate) fn control<B: Board, P: Panel>(machine: &mut Machine<B, P>, instruction: Control)
    ensures { Runs B.Board P.Panel (controlled instruction) machine.old machine.new }
{
    match instruction {
        Control::Bit(bit) => test_bit(&mut machine.core.registers, &machine.board, bit),
        Control::Sk(flag) => skip_if_flag(&mut machine.core.registers, flag, true),
        Control::Skn(flag) => skip_if_flag(&mut machine.core.registers, flag, false),
        Control::Skit(line) => skip_if_waiting(machine, line, true),
        Control::Sknit(line) => skip_if_waiting(machine, line, false),
        Control::Nop => {}
        Control::Ei => enable(&mut machine.core),
        Control::Di => machine.core.interrupts = false,
        Control::Hlt => machine.core.halted = true,
    }
}
