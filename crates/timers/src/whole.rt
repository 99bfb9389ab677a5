// Fresh timers before a fresh bench panel, from outside.
ghost use Rattle.std.specs.Prelude.{◌≡◌};
ghost use Rattle.lines.specs.Of.{lines_of};
ghost use Rattle.panel.specs.Calls.{driven};
ghost use Rattle.panel.specs.Rules.{code_of, states_of, rose};
ghost use Rattle.panel.specs.Schedule.{scheduled};
ghost use Rattle.timers.specs.Timed.{timed_rules, timed_start};

use crate::front::Timers;
use lines::Lines;
use panel::{BenchPanel, Call, Due, answers};

// What a code shows after calls in a row, and which lines then rise in further states.
pub fn timers_answers(schedule: Vec<Due>, calls: &[Call], code: u8, states: u32) -> (u8, Lines)
    ensures shown { result.0 ≡ timed_rules.shown (driven timed_rules (timed_start (scheduled schedule.items)) calls.now) (code_of code) }
    ensures lines { lines_of result.1 ≡ rose timed_rules (driven timed_rules (timed_start (scheduled schedule.items)) calls.now) (states_of states) }
{
    let timers = Timers::before(BenchPanel::new(schedule));
    answers(timers, calls, code, states)
}
