// The lines of a listing: the sheet of a core, and the line of a fault.
ghost use Rattle.std.specs.Prelude.{◌++◌};
ghost use Rattle.session.specs.Appends.{Appends, Room};
ghost use Rattle.session.specs.Play.{fault_text};
ghost use Rattle.session.specs.Sheet.{pointer_line, bank_line, meter_line, sheet};

use crate::fault::{Place, SessionFault};
use crate::listing::Listing;
use registers::bank::Bank;
use registers::file::Registers;

/// What a core was granted and what became of it, all zero until it runs.
#[derive(Clone, Copy, Default)]
struct Meter {
    granted: u64,
    ahead: u64,
    spent: u64,
    forfeited: u64,
}

impl Listing<'_> {
    /// The sheet of a core that has not run.
    pub(crate) fn sheet(&mut self, registers: &Registers)
        requires { Room self.old 157 }
        ensures { Appends self.old (sheet registers.now) self.new }
    {
        self.pointers(registers);
        self.bank(&registers.main);
        self.meter(Meter::default());
    }

    fn pointers(&mut self, registers: &Registers)
        requires { Room self.old 31 }
        ensures { Appends self.old (pointer_line registers.now) self.new }
    {
        self.word(b"PC ", registers.pc);
        self.word(b" SP ", registers.sp);
        self.word(b" EA ", registers.ea);
        self.byte(b" PSW ", registers.flags.into());
        self.text(b"\n");
    }

    fn bank(&mut self, bank: &Bank)
        requires { Room self.old 40 }
        ensures { Appends self.old (bank_line bank.now) self.new }
    {
        self.byte(b"V ", bank.v);
        self.byte(b" A ", bank.a);
        self.byte(b" B ", bank.b);
        self.byte(b" C ", bank.c);
        self.byte(b" D ", bank.d);
        self.byte(b" E ", bank.e);
        self.byte(b" H ", bank.h);
        self.byte(b" L ", bank.l);
        self.text(b"\n");
    }

    fn meter(&mut self, meter: Meter)
        requires { Room self.old 86 }
        ensures { Appends self.old (meter_line meter.granted meter.ahead meter.spent meter.forfeited) self.new }
    {
        self.number(b"M ", meter.granted);
        self.number(b" ", meter.ahead);
        self.number(b" ", meter.spent);
        self.number(b" ", meter.forfeited);
        self.text(b"\n");
    }

    /// The line of a fault.
    pub(crate) fn fault(&mut self, fault: SessionFault)
        requires { Room self.old 65 }
        ensures { Appends self.old (fault_text fault) self.new }
    {
        let Place { number, offset } = fault.place();
        self.number(b"F ", u64::from(fault.number()));
        self.number(b" ", number as u64);
        self.number(b" ", offset as u64);
        self.text(b"\n");
    }
}
