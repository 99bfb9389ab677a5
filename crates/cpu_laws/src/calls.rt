// A call, and the return behind it.
ghost use Rattle.std.specs.Prelude.{◌≡◌};
ghost use Rattle.machine.specs.Effects.{Runs, Between};
ghost use Rattle.cpu_laws.specs.Runs.{called_and_returned};
ghost use Rattle.cpu_laws.specs.Laws.{CallReturns};

use crate::widths::measure;
use board::Board;
use execution::execute;
use isa::{Instruction, Jump};
use machine::Machine;
use panel::Panel;

/// Executes a call, or any other jump, and then RET.
pub fn call_and_return<B: Board, P: Panel>(machine: &mut Machine<B, P>, call: Jump)
    ensures becomes { Runs B.Board P.Panel (called_and_returned P.Panel.rules call) machine.old machine.new }
    ensures returns { Between B.Board P.Panel (CallReturns call) machine.old machine.new }
{
    measure(machine.core.registers);
    execute(machine, Instruction::Jump(call));
    execute(machine, Instruction::Jump(Jump::Ret));
}
