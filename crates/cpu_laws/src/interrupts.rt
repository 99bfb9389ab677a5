// A step, and the return from an interrupt behind it.
ghost use Rattle.std.specs.Prelude.{◌≡◌};
ghost use Rattle.machine.specs.Of.{model_of};
ghost use Rattle.machine.specs.Effects.{Runs, Between};
ghost use Rattle.cpu.specs.Step.{outcome, answer};
ghost use Rattle.cpu_laws.specs.Runs.{entered_and_returned};
ghost use Rattle.cpu_laws.specs.Laws.{EntryReturns};

use crate::widths::measure;
use board::Board;
use cpu::{UndefinedCode, step};
use execution::execute;
use isa::{Instruction, Jump};
use machine::Machine;
use panel::Panel;

/// Makes a step and executes RETI behind it, and answers the step's states. An undefined code changes nothing.
pub fn enter_and_return<B: Board, P: Panel>(
    machine: &mut Machine<B, P>,
) -> Result<u8, UndefinedCode>
    ensures becomes { Runs B.Board P.Panel (entered_and_returned P.Panel.rules) machine.old machine.new }
    ensures answer { result ≡ answer (outcome P.Panel.rules (model_of B.Board P.Panel machine.old)) }
    ensures returns { Between B.Board P.Panel EntryReturns machine.old machine.new }
{
    measure(machine.core.registers);
    let states = step(machine)?;
    execute(machine, Instruction::Jump(Jump::Reti));
    Ok(states)
}
