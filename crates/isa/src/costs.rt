// How long an instruction is, and how many states it counts.
ghost use Rattle.std.specs.Prelude.{◌≡◌, ◌≤◌};
ghost use Rattle.isa.specs.Costs.{Cost, cost_of};

mod arithmetic;
mod control;
mod jump;
mod special;
mod transfer;

use crate::instructions::Instruction;

// What the instructions of a family cost.
trait Costs {
    ghost cost: { Self → Cost };

    // Their bytes, 1 to 4.
    fn length(self) -> u8
        ensures value { result ≡ (cost self).bytes }
        ensures bound { (1 ≤ result) × (result ≤ 4) };

    // The states of one step, 4 to 59.
    fn states(self) -> u8
        ensures value { result ≡ (cost self).states }
        ensures bound { (4 ≤ result) × (result ≤ 59) };

    // The states when they are skipped, 4 to 14.
    fn skipped(self) -> u8
        ensures value { result ≡ (cost self).skipped }
        ensures bound { (4 ≤ result) × (result ≤ 14) };
}

// Three methods and no struct of the three numbers: a step asks for one or two of them.
impl Instruction {
    /// Its bytes, 1 to 4.
    pub fn length(self) -> u8
        ensures value { result ≡ (cost_of self).bytes }
        ensures bound { (1 ≤ result) × (result ≤ 4) }
    {
        match self {
            Instruction::Transfer(instruction) => instruction.length(),
            Instruction::Arithmetic(instruction) => instruction.length(),
            Instruction::Jump(instruction) => instruction.length(),
            Instruction::Special(instruction) => instruction.length(),
            Instruction::Control(instruction) => instruction.length(),
        }
    }

    /// The states of one step, 4 to 59.
    pub fn states(self) -> u8
        ensures value { result ≡ (cost_of self).states }
        ensures bound { (4 ≤ result) × (result ≤ 59) }
    {
        match self {
            Instruction::Transfer(instruction) => instruction.states(),
            Instruction::Arithmetic(instruction) => instruction.states(),
            Instruction::Jump(instruction) => instruction.states(),
            Instruction::Special(instruction) => instruction.states(),
            Instruction::Control(instruction) => instruction.states(),
        }
    }

    /// The states when it is skipped, 4 to 14.
    pub fn skipped(self) -> u8
        ensures value { result ≡ (cost_of self).skipped }
        ensures bound { (4 ≤ result) × (result ≤ 14) }
    {
        match self {
            Instruction::Transfer(instruction) => instruction.skipped(),
            Instruction::Arithmetic(instruction) => instruction.skipped(),
            Instruction::Jump(instruction) => instruction.skipped(),
            Instruction::Special(instruction) => instruction.skipped(),
            Instruction::Control(instruction) => instruction.skipped(),
        }
    }
}
