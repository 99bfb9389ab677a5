// What the bench panel does.
ghost use Rattle.std.specs.Prelude.{◌≡◌};
ghost use Rattle.panel.specs.Bench.{Bench, bench_rules, bench_start};
ghost use Rattle.panel.specs.BenchOf.{bench_of};
ghost use Rattle.panel.specs.Schedule.{scheduled};
ghost use Rattle.std.proofs.Common.{rules};

use super::BenchPanel;
use crate::Panel;
use crate::limits::{code_of, states_of};
use crate::schedule::{Due, Schedule};
use lines::Lines;

impl BenchPanel {
    pub fn new(schedule: Vec<Due>) -> BenchPanel
        ensures { bench_of result ≡ bench_start (scheduled schedule.items) }
    {
        BenchPanel {
            bytes: [0; 64],
            schedule: Schedule::new(schedule),
        }
    }
}

impl Panel for BenchPanel {
    ghost Standing = { Bench };

    ghost rules = { bench_rules };

    ghost standing = { bench_of };

    ghost only_lines = { Prim.search rules };

    fn show(&self, code: u8) -> u8 {
        self.bytes[usize::from(code_of(code))]
    }

    fn put(&mut self, code: u8, byte: u8) {
        let place = usize::from(code_of(code));
        self.bytes[place] = byte;
    }

    fn pass(&mut self, states: u32) -> Lines {
        self.schedule.advance(states_of(states))
    }

    fn reset(&mut self) {
        self.bytes = [0; 64];
    }
}
