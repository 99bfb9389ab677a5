// A new value, and what a value shows.
ghost use Rattle.std.specs.Prelude.{◌≡◌, ◌+◌};
ghost use Rattle.lines.specs.Numbers.{number_of};
ghost use Rattle.lines.specs.Of.{lines_of};
ghost use Rattle.requests.specs.Of.{requests_of};
ghost use Rattle.requests.specs.Request.{one, quiet, tally_of};
ghost use Rattle.requests.specs.All.{marks_of};

use super::Requests;
use crate::tally::Tally;
use lines::{Line, Lines};

// What is counted of a line that had no signal.
fn no_signal() -> Tally
    ensures { result ≡ tally_of quiet }
{
    Tally::default()
}

impl Requests {
    // No line had a signal. A default by hand would be no shorter, and none can be derived beside a ghost field.
    pub fn new() -> Requests
        ensures { requests_of result ≡ (λ k. quiet) }
    {
        Requests {
            marks: Lines::empty(),
            tallies: [no_signal(); 11],
        }
    }

    // The lines that wait.
    #[tactic(auto, unfolding(crate::specs::Of::requests_of))]
    pub fn marks(&self) -> Lines
        ensures { lines_of result ≡ marks_of (requests_of self.now) }
    {
        self.marks
    }

    // What was counted of a line, with the mark the whole of its signals.
    pub fn tally(&self, line: Line) -> Tally
        ensures value { result ≡ tally_of (requests_of self.now (number_of line)) }
        ensures whole { result.signals ≡ result.merged + result.entered + result.tested + result.dropped + one (marks_of (requests_of self.now) (number_of line)) }
    {
        self.tallies[usize::from(line.number())]
    }
}
