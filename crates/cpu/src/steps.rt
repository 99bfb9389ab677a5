// What a step does, and how its states pass.
ghost use Rattle.std.specs.Prelude.{◌≡◌};
ghost use Rattle.machine.specs.Of.{model_of};
ghost use Rattle.machine.specs.Effects.{Runs};
ghost use Rattle.cpu.specs.Codes.{code_here};
ghost use Rattle.cpu.specs.Step.{idled, passed_over, skipping, executing, outcome, answer, elapsed, stepped, Counted, ComesTo};

use crate::codes::{UndefinedCode, fetch, undefined_code};
use crate::entry::enter;
use crate::pick::{Mode, is_open, mode_with, pick};
use board::Board;
use execution::execute;
use machine::Machine;
use panel::Panel;
use registers::bench::Core;

/// The states that an entry counts.
const ENTRY_STATES: u8 = 16;

/// The states that an idle counts.
const IDLE_STATES: u8 = 4;

/// Makes one step and answers the states that it counted. An undefined code makes no step and changes nothing.
pub fn step<B: Board, P: Panel>(machine: &mut Machine<B, P>) -> Result<u8, UndefinedCode>
    ensures becomes { Runs B.Board P.Panel (stepped P.Panel.rules) machine.old machine.new }
    ensures answer { result ≡ answer (outcome P.Panel.rules (model_of B.Board P.Panel machine.old)) }
    ensures counted { Counted result }
{
    let states = act(machine)?;
    elapse(machine, states);
    Ok(states)
}

// States pass on the panel, and the lines that rise in them are signalled.
fn elapse<B: Board, P: Panel>(machine: &mut Machine<B, P>, states: u8)
    ensures { Runs B.Board P.Panel (elapsed P.Panel.rules states) machine.old machine.new }
{
    let lines = machine.panel.pass(u32::from(states));
    machine.requests.signal_all(lines);
}

// The step without the passing of its states.
fn act<B: Board, P: Panel>(machine: &mut Machine<B, P>) -> Result<u8, UndefinedCode>
    ensures { ComesTo B.Board P.Panel (outcome P.Panel.rules) result machine.old machine.new }
{
    let pick = pick(&machine.core, &machine.requests);
    match (mode_with(&machine.core, pick), pick) {
        (_, Some(level)) if is_open(&machine.core, level) => {
            enter(machine, level);
            Ok(ENTRY_STATES)
        }
        (Mode::Halted, _) => {
            machine.core.after_ei = false;
            Ok(IDLE_STATES)
        }
        (Mode::Skipping, _) => skip(machine),
        (Mode::Running, _) => run(machine),
    }
}

// The code at PC, executed. Matched, and not handed on by `map_err` and `?`, which makes a step slower by a tenth.
fn run<B: Board, P: Panel>(machine: &mut Machine<B, P>) -> Result<u8, UndefinedCode>
    ensures { ComesTo B.Board P.Panel (λ m. executing P.Panel.rules (code_here m) m) result machine.old machine.new }
{
    let pc = machine.core.registers.pc;
    match fetch(&machine.board, pc) {
        Ok(instruction) => {
            execute(machine, instruction);
            Ok(instruction.states())
        }
        Err(decided) => Err(undefined_code(&machine.board, pc, decided)),
    }
}

// The code at PC, passed over; matched as in `run`.
fn skip<B: Board, P: Panel>(machine: &mut Machine<B, P>) -> Result<u8, UndefinedCode>
    ensures { ComesTo B.Board P.Panel (λ m. skipping (code_here m) m) result machine.old machine.new }
{
    let pc = machine.core.registers.pc;
    match fetch(&machine.board, pc) {
        Ok(instruction) => {
            pass_over(&mut machine.core, instruction.length());
            Ok(instruction.skipped())
        }
        Err(decided) => Err(undefined_code(&machine.board, pc, decided)),
    }
}

fn pass_over(core: &mut Core, length: u8)
    ensures { core.new ≡ passed_over length core.old }
{
    core.registers.pc = core.registers.pc.wrapping_add(u16::from(length));
    core.registers.flags.skip = false;
    core.halted = false;
    core.after_ei = false;
}
