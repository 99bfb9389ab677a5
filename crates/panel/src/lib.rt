// What every kind of panel does, and the bench panel.
#![tactic(auto)]

ghost use Rattle.std.specs.Prelude.{◌≡◌};
ghost use Rattle.lines.specs.Of.{lines_of};
ghost use Rattle.panel.specs.Rules.{Rules, OnlyLines, code_of, states_of, passed, rose};

use lines::Lines;

mod bench;
mod calls;
mod limits;
mod schedule;

pub use bench::BenchPanel;
pub use calls::{Call, answers, bench_answers};
pub use limits::{code_of, states_of};
pub use schedule::Due;

pub trait Panel {
    // One value of all that the rules use, a panel behind this one included.
    ghost Standing: { Type 0 };

    ghost rules: { Rules Standing };

    ghost standing: { Self → Standing };

    // The byte that a special register shows.
    fn show(&self, code: u8) -> u8
        ensures { result ≡ rules.shown (standing self.now) (code_of code) };

    fn put(&mut self, code: u8, byte: u8)
        ensures { standing self.new ≡ rules.putting (standing self.old) (code_of code) byte };

    // Passes states, and answers the lines that rose.
    fn pass(&mut self, states: u32) -> Lines
        ensures after { standing self.new ≡ passed rules (standing self.old) (states_of states) }
        ensures lines { lines_of result ≡ rose rules (standing self.old) (states_of states) };

    fn reset(&mut self)
        ensures { standing self.new ≡ rules.clearing (standing self.old) };

    ghost only_lines: { OnlyLines rules };
}
