// The laws of the codes: which second bytes count, how many codes are defined, and that encoding and decoding are inverse.
#![tactic(auto)]

ghost use Rattle.std.specs.Prelude.{◌≡◌, true, Ok};
ghost use Rattle.isa.specs.Decoding.{decoded};
ghost use Rattle.isa.specs.Encoding.{encoded};
ghost use Rattle.isa_laws.specs.Laws.{prefix, Alone, Deciding, counted, begins, Inverse};

use isa::{Instruction, Opcode};

/// Whether a first byte is a prefix; any other decides alone.
#[tactic(auto, using(crate::proofs::Forth::alone, crate::proofs::Forth::deciding))]
pub fn is_prefix(first: u8) -> bool
    ensures value { result ≡ prefix first }
    ensures alone { Alone }
    ensures decides { Deciding }
{
    matches!(first, 0x48 | 0x4C | 0x4D | 0x60 | 0x64 | 0x70 | 0x74)
}

/// How many codes of one or two opcode bytes are defined.
#[tactic(auto, using(crate::proofs::Forth::count))]
pub fn defined_codes() -> u16
    ensures value { result ≡ 1082 }
    ensures all { result ≡ counted }
{
    1082
}

/// Whether two bytes begin with an instruction's opcode, which is to say that they decode to it.
#[tactic(auto, using(crate::proofs::Forth::inverse))]
pub fn is_code_of(instruction: Instruction, first: u8, second: u8) -> bool
    ensures value { result ≡ begins (encoded instruction) first second }
    ensures sound { result ≡ true → decoded first second ≡ Ok instruction }
    ensures complete { decoded first second ≡ Ok instruction → result ≡ true }
    ensures inverse { Inverse }
{
    begins_with(instruction.encode(), first, second)
}

// One match over the three cases; `is_some_and` would put a second match into the first.
fn begins_with(opcode: Option<Opcode>, first: u8, second: u8) -> bool
    ensures { result ≡ begins opcode first second }
{
    match opcode {
        Some(Opcode::One(byte)) => byte == first,
        Some(Opcode::Two(prefix, behind)) => prefix == first && behind == second,
        None => false,
    }
}
