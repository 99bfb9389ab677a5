// The execution of an instruction, by its family.
ghost use Rattle.std.specs.Prelude.{◌≡◌};
ghost use Rattle.machine.specs.Effects.{Runs};
ghost use Rattle.machine.specs.Model.{begun};
ghost use Rattle.machine.specs.Instructions.{performed, executed};

use crate::control::control;
use crate::special::handle_special;
use arithmetic::compute;
use board::Board;
use isa::Instruction;
use jumps::direct;
use machine::Machine;
use panel::Panel;
use registers::bench::Core;
use registers::flags::Flags;
use transfers::transfer;

/// Executes an instruction: PC moves past it, SK, L1 and L0 are cleared, and its operation is done.
pub fn execute<B: Board, P: Panel>(machine: &mut Machine<B, P>, instruction: Instruction)
    ensures { Runs B.Board P.Panel (executed P.Panel.rules instruction) machine.old machine.new }
{
    let before = machine.core.registers.flags;
    begin(&mut machine.core, instruction.length());
    perform(machine, instruction, before);
}

fn begin(core: &mut Core, length: u8)
    ensures { core.new ≡ begun length core.old }
{
    core.registers.pc = core.registers.pc.wrapping_add(u16::from(length));
    core.registers.flags.skip = false;
    core.registers.flags.l1 = false;
    core.registers.flags.l0 = false;
    core.halted = false;
    core.after_ei = false;
}

fn perform<B: Board, P: Panel>(machine: &mut Machine<B, P>, instruction: Instruction, before: Flags)
    ensures { Runs B.Board P.Panel (performed P.Panel.rules before instruction) machine.old machine.new }
{
    match instruction {
        Instruction::Transfer(i) => transfer(
            &mut machine.core.registers,
            &mut machine.board,
            i,
            before,
        ),
        Instruction::Arithmetic(i) => compute(&mut machine.core.registers, &mut machine.board, i),
        Instruction::Jump(i) => direct(&mut machine.core.registers, &mut machine.board, i, before),
        Instruction::Special(i) => handle_special(machine, i),
        Instruction::Control(i) => control(machine, i),
    }
}
