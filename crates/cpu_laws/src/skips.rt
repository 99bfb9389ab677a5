// A step, and what a skip is.
ghost use Rattle.std.specs.Prelude.{◌≡◌};
ghost use Rattle.machine.specs.Of.{model_of};
ghost use Rattle.machine.specs.Effects.{Runs, Between};
ghost use Rattle.cpu.specs.Step.{outcome, answer, stepped};
ghost use Rattle.cpu_laws.specs.Laws.{SkipPasses};

use board::Board;
use cpu::{UndefinedCode, step};
use machine::Machine;
use panel::Panel;

/// Makes a step; one that skips only passes over the code.
pub fn step_over<B: Board, P: Panel>(machine: &mut Machine<B, P>) -> Result<u8, UndefinedCode>
    ensures becomes { Runs B.Board P.Panel (stepped P.Panel.rules) machine.old machine.new }
    ensures answer { result ≡ answer (outcome P.Panel.rules (model_of B.Board P.Panel machine.old)) }
    ensures skips { Between B.Board P.Panel (SkipPasses P.Panel.rules) machine.old machine.new }
{
    step(machine)
}
