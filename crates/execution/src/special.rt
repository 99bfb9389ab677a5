// Special registers: the masks in the core, the others on the panel.
ghost use Rattle.std.specs.Prelude.{◌≡◌};
ghost use Rattle.machine.specs.Effects.{Runs};
ghost use Rattle.machine.specs.Model.{ports, on_ports, on_ports_reading};
ghost use Rattle.machine.specs.Transfer.{special as special_of, special_put, special_read, special_written, special_immediate};
ghost use Rattle.machine.specs.Arithmetic.{operated_sr2};
ghost use Rattle.machine.specs.Instructions.{specially};

use alu::{Operation, operate_byte};
use board::Board;
use isa::Special;
use machine::Machine;
use operands::data_byte;
use panel::Panel;

// Codes and no enum: the panel has the other 62 by their numbers, and takes any.
const MKH: u8 = 6;

const MKL: u8 = 7;

fn read_special<B, P: Panel>(machine: &Machine<B, P>, code: u8) -> u8
    ensures { result ≡ special_of P.Panel.rules code (ports machine.now.core (P.Panel.standing machine.now.panel)) }
{
    match code {
        MKH => machine.core.mkh,
        MKL => machine.core.mkl,
        _ => machine.panel.show(code),
    }
}

fn write_special<B: Board, P: Panel>(machine: &mut Machine<B, P>, code: u8, byte: u8)
    ensures { Runs B.Board P.Panel (on_ports (special_put P.Panel.rules code byte)) machine.old machine.new }
{
    match code {
        MKH => machine.core.mkh = byte,
        MKL => machine.core.mkl = byte,
        _ => machine.panel.put(code, byte),
    }
}

/// MOV A,sr1.
fn move_from_special<B: Board, P: Panel>(machine: &mut Machine<B, P>, code: u8)
    ensures { Runs B.Board P.Panel (on_ports (special_read P.Panel.rules code)) machine.old machine.new }
{
    let byte = read_special(machine, code);
    machine.core.registers.main.a = byte;
}

/// MOV sr,A.
fn move_to_special<B: Board, P: Panel>(machine: &mut Machine<B, P>, code: u8)
    ensures { Runs B.Board P.Panel (on_ports (special_written P.Panel.rules code)) machine.old machine.new }
{
    let a = machine.core.registers.main.a;
    write_special(machine, code, a);
}

/// MVI sr2,byte.
fn load_special<B: Board, P: Panel>(machine: &mut Machine<B, P>, code: u8)
    ensures { Runs B.Board P.Panel (on_ports_reading (special_immediate P.Panel.rules code)) machine.old machine.new }
{
    let byte = data_byte(&machine.core.registers, &machine.board);
    write_special(machine, code, byte);
}

/// The operations on sr2,byte.
fn operate_special<B: Board, P: Panel>(machine: &mut Machine<B, P>, operation: Operation, code: u8)
    ensures { Runs B.Board P.Panel (on_ports_reading (operated_sr2 P.Panel.rules operation code)) machine.old machine.new }
{
    let byte = data_byte(&machine.core.registers, &machine.board);
    let old = read_special(machine, code);
    let value = operate_byte(operation, old, byte, &mut machine.core.registers.flags);
    if operation.stores() {
        write_special(machine, code, value);
    }
}

pub(crate) fn handle_special<B: Board, P: Panel>(machine: &mut Machine<B, P>, instruction: Special)
    ensures { Runs B.Board P.Panel (on_ports_reading (specially P.Panel.rules instruction)) machine.old machine.new }
{
    match instruction {
        Special::MovToSr(code) => move_to_special(machine, code),
        Special::MovFromSr1(code) => move_from_special(machine, code),
        Special::MviSr2(code) => load_special(machine, code),
        Special::OperateSr2(operation, code) => operate_special(machine, operation, code),
    }
}
