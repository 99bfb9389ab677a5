// The two timers with their registers.
ghost use Rattle.std.specs.Prelude.{◌≡◌};
ghost use Rattle.lines.specs.Numbers.{number_of};
ghost use Rattle.lines.specs.Of.{lines_of};
ghost use Rattle.panel.specs.Rules.{passed, rose};
ghost use Rattle.timers.specs.Counting.{raised_by};
ghost use Rattle.timers.specs.Registers.{code_at};
ghost use Rattle.timers.specs.Timing.{timing_start, timing_shown, timing_putting, timing_rules, with_mode};
ghost use Rattle.timers.specs.TimersOf.{timing_of};

use crate::pace::Pace;
use crate::register::Register;
use crate::timer::Timer;
use lines::{Line, Lines};

// Contracts see it through `timing_of`, which rests on `count_of`, and so is no model either.
#[derive(Clone, Copy)]
pub(crate) struct TimerPair {
    tmm: u8,
    timer0: Timer,
    timer1: Timer,
}

// Adds a timer's line where the timer matched.
fn raise(lines: &mut Lines, line: Line, matches: u8)
    ensures { lines_of lines.new ≡ raised_by (number_of line) matches (lines_of lines.old) }
{
    if matches > 0 {
        lines.insert(line);
    }
}

impl TimerPair {
    // Both are stopped, which a derived default would not make them.
    pub(crate) fn new() -> TimerPair
        ensures { timing_of result ≡ timing_start }
    {
        TimerPair {
            tmm: 0xff,
            timer0: Timer::default(),
            timer1: Timer::default(),
        }
    }

    pub(crate) fn show(&self, register: Register) -> u8
        ensures { result ≡ timing_shown (timing_of self.now) (code_at register) }
    {
        match register {
            Register::Tmm => self.tmm,
            Register::Tm0 => self.timer0.tm,
            Register::Tm1 => self.timer1.tm,
        }
    }

    pub(crate) fn put(&mut self, register: Register, byte: u8)
        ensures { timing_of self.new ≡ timing_putting (timing_of self.old) (code_at register) byte }
    {
        match register {
            Register::Tmm => self.set_mode(byte),
            Register::Tm0 => self.timer0.tm = byte,
            Register::Tm1 => self.timer1.tm = byte,
        }
    }

    fn set_mode(&mut self, tmm: u8)
        ensures { timing_of self.new ≡ with_mode (timing_of self.old) tmm }
    {
        self.tmm = tmm;
        if Pace::of_mode(tmm).is_none() {
            self.timer0.clear();
        }
        if Pace::of_mode(tmm / 8).is_none() {
            self.timer1.clear();
        }
    }

    // Passes states, and answers the lines that rose. Timer 0 goes first, and its matches are carried over to timer 1.
    pub(crate) fn pass(&mut self, states: u8) -> Lines
        ensures after { timing_of self.new ≡ passed timing_rules (timing_of self.old) states }
        ensures lines { lines_of result ≡ rose timing_rules (timing_of self.old) states }
    {
        let first = self.timer0.pass(Pace::of_mode(self.tmm), 0, states);
        let second = self.timer1.pass(Pace::of_mode(self.tmm / 8), first, states);
        let mut lines = Lines::empty();
        raise(&mut lines, Line::Ft0, first);
        raise(&mut lines, Line::Ft1, second);
        lines
    }
}
