// The timers before a panel.
ghost use Rattle.std.specs.Prelude.{◌≡◌};
ghost use Rattle.panel.specs.Stacked.{Stacked, stacked, before};
ghost use Rattle.timers.specs.Timing.{Timing, timing_start, timing_owns, timing_rules};
ghost use Rattle.timers.specs.TimersOf.{timers_of};
ghost use Rattle.std.proofs.Common.{rules};

use crate::pair::TimerPair;
use crate::register::Register;
use lines::Lines;
use panel::{Panel, code_of, states_of};

// Contracts see it through `timers_of`: a model's value cannot be made of what a bound says, as the standing of the panel behind is.
#[derive(Drop)]
pub struct Timers<P> {
    pair: TimerPair,
    behind: P,
}

impl<P: Panel> Timers<P> {
    pub fn before(behind: P) -> Timers<P>
        ensures { timers_of P.Panel.standing result ≡ stacked timing_start (P.Panel.standing behind) }
    {
        Timers {
            pair: TimerPair::new(),
            behind,
        }
    }
}

impl<P: Panel> Panel for Timers<P> {
    ghost Standing = { Stacked Timing P.Panel.Standing };

    ghost rules = { before timing_owns timing_rules P.Panel.rules };

    ghost standing = { timers_of P.Panel.standing };

    ghost only_lines = { Prim.search rules };

    fn show(&self, code: u8) -> u8 {
        match Register::at(code_of(code)) {
            Some(register) => self.pair.show(register),
            None => self.behind.show(code),
        }
    }

    fn put(&mut self, code: u8, byte: u8) {
        match Register::at(code_of(code)) {
            Some(register) => self.pair.put(register, byte),
            None => self.behind.put(code, byte),
        }
    }

    fn pass(&mut self, states: u32) -> Lines {
        let mut lines = self.pair.pass(states_of(states));
        let behind = self.behind.pass(states);
        lines.join(behind);
        lines
    }

    fn reset(&mut self) {
        self.pair = TimerPair::new();
        self.behind.reset();
    }
}
