// A push, and the pop behind it.
ghost use Rattle.std.specs.Prelude.{◌≡◌};
ghost use Rattle.machine.specs.Effects.{Runs, Between};
ghost use Rattle.cpu_laws.specs.Runs.{pushed_and_popped};
ghost use Rattle.cpu_laws.specs.Laws.{PopRestores};

use crate::widths::measure;
use board::Board;
use execution::execute;
use isa::{Instruction, Rp1, Transfer};
use machine::Machine;
use panel::Panel;

/// Executes PUSH and then POP of one pair.
pub fn push_and_pop<B: Board, P: Panel>(machine: &mut Machine<B, P>, pair: Rp1)
    ensures becomes { Runs B.Board P.Panel (pushed_and_popped P.Panel.rules pair) machine.old machine.new }
    ensures restores { Between B.Board P.Panel PopRestores machine.old machine.new }
{
    measure(machine.core.registers);
    execute(machine, Instruction::Transfer(Transfer::Push(pair)));
    execute(machine, Instruction::Transfer(Transfer::Pop(pair)));
}
