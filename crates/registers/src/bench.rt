// A core's state, and the core on the bench, whose registers may be set.
ghost use Rattle.std.specs.Prelude.{◌≡◌};
ghost use Rattle.registers.specs.Answers.{answer_of, left_by};
ghost use Rattle.registers.specs.Bench.{bench_core, setting};
ghost use Rattle.registers.specs.Numbering.{named, reading_of};

use crate::fault::RegisterFault;
use crate::file::{RegisterName, Registers};
use std::marker::Model;

/// The registers, the two mask registers and the modes of a core.
#[derive(Clone, Copy, PartialEq, Eq, Debug)]
pub struct Core {
    pub registers: Registers,
    pub mkl: u8,
    pub mkh: u8,
    /// Whether interrupts are enabled.
    pub interrupts: bool,
    pub halted: bool,
    /// Whether the last step executed EI.
    pub after_ei: bool,
}

impl Core {
    /// All zero, every line masked, interrupts disabled.
    pub fn new() -> Core
        ensures { result ≡ bench_core }
    {
        Core {
            registers: Registers::default(),
            mkl: 0xff,
            mkh: 0xff,
            interrupts: false,
            halted: false,
            after_ei: false,
        }
    }
}

/// A core on the bench: its registers may be set, and it does not run. A core in service is another type.
#[derive(Drop)]
pub struct BenchCore {
    core: Core,
}

impl Model for BenchCore {
    ghost use Rattle.registers.specs.declared.bench.Core.{Core};

    ghost Value = { Core };

    ghost view = { λ bench. bench.core };
}

impl BenchCore {
    /// A core with all registers zero.
    pub fn new() -> BenchCore
        ensures { result ≡ bench_core }
    {
        BenchCore { core: Core::new() }
    }

    /// Sets a register by its number. A refusal changes nothing.
    pub fn set(&mut self, register: u32, value: u32) -> Result<(), RegisterFault>
        ensures answer { result ≡ answer_of (setting register value self.old) }
        ensures after { self.new ≡ left_by (setting register value self.old) self.old }
    {
        let name = RegisterName::try_from(register)?;
        self.core.registers.set(name, value)
    }

    /// A register's value by its number.
    pub fn get(&self, register: u32) -> Result<u16, RegisterFault>
        ensures { result ≡ reading_of (named register) self.now.registers }
    {
        let name = RegisterName::try_from(register)?;
        Ok(self.core.registers.get(name))
    }

    /// The core as it leaves the bench.
    pub fn into_core(self) -> Core
        ensures { result ≡ self }
    {
        let BenchCore { core } = self;
        core
    }
}
