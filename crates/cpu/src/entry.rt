// The entry of an interrupt.
ghost use Rattle.std.specs.Prelude.{◌≡◌};
ghost use Rattle.machine.specs.Effects.{Runs};
ghost use Rattle.requests.specs.Of.{requests_of};
ghost use Rattle.cpu.specs.Step.{entered as entry_of, vectored, cleared_by};

use crate::pick::masks;
use board::Board;
use lines::Level;
use machine::Machine;
use operands::push_status;
use panel::Panel;
use registers::bench::Core;
use requests::Requests;

/// Enters a level: PSW and PC go to the stack, and PC becomes its vector.
pub(crate) fn enter<B: Board, P: Panel>(machine: &mut Machine<B, P>, level: Level)
    ensures { Runs B.Board P.Panel (entry_of level) machine.old machine.new }
{
    let registers = machine.core.registers;
    push_status(
        &mut machine.board,
        registers.sp,
        u8::from(registers.flags),
        registers.pc,
    );
    clear_mark(&mut machine.requests, level, masks(&machine.core));
    go_to_vector(&mut machine.core, level);
}

// The entered line's mark, unless both lines of the pair are unmasked.
fn clear_mark(requests: &mut Requests, level: Level, masks: u16)
    ensures { requests_of requests.new ≡ cleared_by level masks (requests_of requests.old) }
{
    if let Some(line) = level.entered(masks) {
        requests.enter(line);
    }
}

fn go_to_vector(core: &mut Core, level: Level)
    ensures { core.new ≡ vectored level core.old }
{
    core.registers.sp = core.registers.sp.wrapping_sub(3);
    core.registers.pc = level.vector();
    core.registers.flags.skip = false;
    core.registers.flags.l1 = false;
    core.registers.flags.l0 = false;
    core.interrupts = false;
    core.halted = false;
    core.after_ei = false;
}
