// The fifteen operations in their forms, products, decimal adjust.
// Registers and board are two parameters: `&` and `&mut` say which of them a function changes.
ghost use Rattle.std.specs.Prelude.{◌≡◌};
ghost use Rattle.machine.specs.Effects.{Acts};
ghost use Rattle.machine.specs.Arithmetic.{operated_on, operated_on_ea, operated_a, operated_r, operated_ea, operated_ea_byte, operated_x, operated_byte, operated_w, cell_operated, operated_w_byte, multiplied, divided, decimal_adjusted, a_negated};

use alu::{Operation, Width, decimal_adjust, divide, multiply, negate, operate, operate_byte};
use board::Board;
use isa::Rpa2;
use machine::WordRegister;
use operands::{data_byte, data_bytes, get_word, rpa2_address, use_rpa2, working_address};
use registers::bank::ByteRegister;
use registers::file::Registers;

/// An operation on a register and a byte.
pub(crate) fn operate_on(
    registers: &mut Registers,
    operation: Operation,
    register: ByteRegister,
    byte: u8,
)
    ensures { registers.new ≡ operated_on operation register byte registers.old }
{
    let old = registers.main.get(register);
    let value = operate_byte(operation, old, byte, &mut registers.flags);
    if operation.stores() {
        registers.main.set(register, value);
    }
}

/// An operation on EA and a word.
pub(crate) fn operate_on_ea(registers: &mut Registers, operation: Operation, word: u16)
    ensures { registers.new ≡ operated_on_ea operation word registers.old }
{
    let value = operate(
        operation,
        Width::Word,
        registers.ea,
        word,
        &mut registers.flags,
    );
    if operation.stores() {
        registers.ea = value;
    }
}

/// On A and (rpa).
pub(crate) fn operate_indirect<B: Board>(
    registers: &mut Registers,
    board: &B,
    operation: Operation,
    place: Rpa2,
)
    ensures { registers.new ≡ operated_x operation place (B.Board.cells board.now) registers.old }
{
    let byte = board.read(rpa2_address(registers, board, place));
    operate_on(registers, operation, ByteRegister::A, byte);
    use_rpa2(registers, place);
}

/// On a register and the data byte.
pub(crate) fn operate_immediate<B: Board>(
    registers: &mut Registers,
    board: &B,
    operation: Operation,
    register: ByteRegister,
)
    ensures { registers.new ≡ operated_byte operation register (B.Board.cells board.now) registers.old }
{
    let byte = data_byte(registers, board);
    operate_on(registers, operation, register, byte);
}

/// On A and a working cell.
pub(crate) fn operate_working<B: Board>(registers: &mut Registers, board: &B, operation: Operation)
    ensures { registers.new ≡ operated_w operation (B.Board.cells board.now) registers.old }
{
    let wa = data_byte(registers, board);
    let byte = board.read(working_address(registers, wa));
    operate_on(registers, operation, ByteRegister::A, byte);
}

/// On a working cell and the data byte.
pub(crate) fn operate_working_cell<B: Board>(
    registers: &mut Registers,
    board: &mut B,
    operation: Operation,
)
    ensures { Acts B.Board (operated_w_byte operation) (registers.old, board.old) (registers.new, board.new) }
{
    let [wa, byte] = data_bytes(registers, board);
    let address = working_address(registers, wa);
    let old = board.read(address);
    let value = operate_byte(operation, old, byte, &mut registers.flags);
    if operation.stores() {
        board.write(address, value);
    }
}

/// MUL r2.
pub(crate) fn multiply_by(registers: &mut Registers, register: ByteRegister)
    ensures { registers.new ≡ multiplied register registers.old }
{
    let byte = registers.main.get(register);
    registers.ea = multiply(registers.main.a, byte);
}

/// DIV r2.
pub(crate) fn divide_by(registers: &mut Registers, register: ByteRegister)
    ensures { registers.new ≡ divided register registers.old }
{
    let mut byte = registers.main.get(register);
    let quotient = divide(registers.ea, &mut byte);
    registers.main.set(register, byte);
    registers.ea = quotient;
}

/// DAA.
pub(crate) fn adjust_a(registers: &mut Registers)
    ensures { registers.new ≡ decimal_adjusted registers.old }
{
    registers.main.a = decimal_adjust(registers.main.a, &mut registers.flags);
}

/// NEGA.
pub(crate) fn negate_a(registers: &mut Registers)
    ensures { registers.new ≡ a_negated registers.old }
{
    registers.main.a = negate(registers.main.a);
}

/// A,r.
pub(crate) fn operate_a(registers: &mut Registers, operation: Operation, register: ByteRegister)
    ensures { registers.new ≡ operated_a operation register registers.old }
{
    let byte = registers.main.get(register);
    operate_on(registers, operation, ByteRegister::A, byte);
}

/// r,A.
pub(crate) fn operate_r(registers: &mut Registers, operation: Operation, register: ByteRegister)
    ensures { registers.new ≡ operated_r operation register registers.old }
{
    let a = registers.main.a;
    operate_on(registers, operation, register, a);
}

/// EA,rp3.
pub(crate) fn operate_ea(registers: &mut Registers, operation: Operation, pair: WordRegister)
    ensures { registers.new ≡ operated_ea operation pair registers.old }
{
    let word = get_word(registers, pair);
    operate_on_ea(registers, operation, word);
}

/// EADD and ESUB EA,r2.
pub(crate) fn operate_ea_byte(
    registers: &mut Registers,
    operation: Operation,
    register: ByteRegister,
)
    ensures { registers.new ≡ operated_ea_byte operation register registers.old }
{
    let byte = registers.main.get(register);
    operate_on_ea(registers, operation, u16::from(byte));
}
