// One timer: its register, a prescaler and a counter.
ghost use Rattle.std.specs.Prelude.{◌≡◌};
ghost use Rattle.timers.specs.Counting.{counted, matches};
ghost use Rattle.timers.specs.Paces.{steps_at, ran_at, matched_at};
ghost use Rattle.timers.specs.Timing.{cleared};
ghost use Rattle.timers.specs.TimersOf.{count_of};

use crate::pace::Pace;

// The prescaler runs on past 128, of which 256 is a multiple.
// Contracts see it through `count_of`, which forgets the top bit: with such a model it could not be copied.
#[derive(Clone, Copy, Default)]
pub(crate) struct Timer {
    // TM0 or TM1: where the counter matches
    pub(crate) tm: u8,
    prescaler: u8,
    counter: u8,
}

impl Timer {
    // Counts from nothing on, as a timer that is stopped does.
    pub(crate) fn clear(&mut self)
        ensures tm { self.new.tm ≡ self.old.tm }
        ensures count { count_of self.new ≡ cleared }
    {
        self.prescaler = 0;
        self.counter = 0;
    }

    // How often the counter steps in a number of states: as often as the prescaler comes to a multiple, or as timer 0 matched.
    fn steps(&self, pace: Pace, carried: u8, states: u8) -> u8
        ensures { result ≡ steps_at pace carried (count_of self.now).prescaler states }
    {
        let before = u16::from(self.prescaler);
        let states = u16::from(states);
        match pace {
            Pace::Every4 => ((before % 4 + states) / 4) as u8,
            Pace::Every128 => ((before % 128 + states) / 128) as u8,
            Pace::Never => 0,
            Pace::Carried => carried,
        }
    }

    // Steps the counter, and answers how often it matched: `left` steps go by before the first match, and then every `period`th matches.
    fn count(&mut self, steps: u8) -> u8
        ensures tm { self.new.tm ≡ self.old.tm }
        ensures prescaler { self.new.prescaler ≡ self.old.prescaler }
        ensures counter { self.new.counter ≡ counted self.old.tm self.old.counter steps }
        ensures matched { result ≡ matches self.old.tm self.old.counter steps }
    {
        let left = self.tm.wrapping_sub(self.counter).wrapping_sub(1);
        if steps <= left {
            self.counter = self.counter.wrapping_add(steps);
            return 0;
        }
        let past = u16::from(steps - left - 1);
        let period = u16::from(self.tm.wrapping_sub(1)) + 1;
        self.counter = (past % period) as u8;
        (past / period) as u8 + 1
    }

    // Passes states, and answers how often the counter matched.
    pub(crate) fn pass(&mut self, pace: Option<Pace>, carried: u8, states: u8) -> u8
        ensures tm { self.new.tm ≡ self.old.tm }
        ensures after { count_of self.new ≡ ran_at pace carried states self.old.tm (count_of self.old) }
        ensures matched { result ≡ matched_at pace carried states self.old.tm (count_of self.old) }
    {
        let Some(pace) = pace else {
            return 0;
        };
        let steps = self.steps(pace, carried, states);
        self.prescaler = self.prescaler.wrapping_add(states);
        self.count(steps)
    }
}
