// How marks are set and cleared, each counted in its line's tally.
ghost use Rattle.std.specs.Prelude.{◌≡◌};
ghost use Rattle.lines.specs.Numbers.{number_of};
ghost use Rattle.lines.specs.Of.{lines_of};
ghost use Rattle.requests.specs.Of.{requests_of};
ghost use Rattle.requests.specs.Request.{Whole, request_of, signalled, entering, testing, cleared_by};
ghost use Rattle.requests.specs.All.{marks_of, at_line, signalled_all, dropped_all};

use super::Requests;
use crate::tally::{Cause, Tally};
use lines::{Line, Lines};

// A line that has had so many signals takes no more, which no run comes near: so a signal asks for nothing.
const LAST: u64 = u64::MAX;

impl Requests {
    // Writes the mark and the tally of a line.
    fn put(&mut self, line: Line, waiting: bool, tally: Tally)
        requires { Whole (request_of waiting tally) }
        ensures { requests_of self.new ≡ at_line (number_of line) (λ _. request_of waiting tally) (requests_of self.old) }
    {
        self.tallies[usize::from(line.number())] = tally;
        if waiting {
            self.marks.insert(line);
        } else {
            self.marks.remove(line);
        }
    }

    // Sets the mark, unless the line has had the most signals that it can.
    pub fn signal(&mut self, line: Line)
        ensures { requests_of self.new ≡ at_line (number_of line) signalled (requests_of self.old) }
    {
        let tally = self.tally(line);
        if tally.signals < LAST {
            let more = Tally {
                signals: tally.signals + 1,
                merged: tally.merged + u64::from(self.marks.has(line)),
                ..tally
            };
            self.put(line, true, more);
        }
    }

    // Signals the lines of a set. Nearly always it is empty, so that is tested first.
    pub fn signal_all(&mut self, lines: Lines)
        ensures { requests_of self.new ≡ signalled_all (lines_of lines) (requests_of self.old) }
    {
        if lines.is_empty() {
            return;
        }
        self.signal_each(lines);
    }

    // Signals the lines of a set, one by one.
    fn signal_each(&mut self, lines: Lines)
        ensures { requests_of self.new ≡ signalled_all (lines_of lines) (requests_of self.old) }
    {
        for line in Line::ALL {
            if lines.has(line) {
                self.signal(line);
            }
        }
    }

    // Clears the mark, counts it by its cause, and answers whether it was set.
    fn clear(&mut self, line: Line, cause: Cause) -> bool
        ensures after { requests_of self.new ≡ at_line (number_of line) (cleared_by cause) (requests_of self.old) }
        ensures answer { result ≡ marks_of (requests_of self.old) (number_of line) }
    {
        let waiting = self.marks.has(line);
        if waiting {
            let tally = self.tally(line).with_cleared(cause);
            self.put(line, false, tally);
        }
        waiting
    }

    // Clears the mark, as an entry does.
    pub fn enter(&mut self, line: Line)
        ensures { requests_of self.new ≡ at_line (number_of line) entering (requests_of self.old) }
    {
        let _ = self.clear(line, Cause::Entry);
    }

    // Clears the mark, as SKIT and SKNIT do, and answers whether it was set.
    pub fn test(&mut self, line: Line) -> bool
        ensures after { requests_of self.new ≡ at_line (number_of line) testing (requests_of self.old) }
        ensures answer { result ≡ marks_of (requests_of self.old) (number_of line) }
    {
        self.clear(line, Cause::Test)
    }

    // Clears every mark, as a reset does.
    pub fn drop_all(&mut self)
        ensures { requests_of self.new ≡ dropped_all (requests_of self.old) }
    {
        for line in Line::ALL {
            let _ = self.clear(line, Cause::Reset);
        }
    }
}
