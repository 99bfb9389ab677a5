// A schedule of records, and the clock that goes through it.
ghost use Rattle.std.specs.Prelude.{◌≡◌, ◌+◌, ◌≤◌, take, min, nat_le};
ghost use Rattle.std.specs.List.{prefix_len};
ghost use Rattle.lines.specs.Of.{lines_of};
ghost use Rattle.panel.specs.Bench.{last_number};
ghost use Rattle.panel.specs.Places.{InOrder, Gone, Coming, lines_in, due_in};
ghost use Rattle.panel.specs.Schedule.{scheduled};

use lines::{Line, Lines};

// A line that rises when the clock moves to a number. A number and no `Line`, since lines above 10 may stand here, and never rise.
#[derive(Clone, Copy, PartialEq, Eq, PartialOrd, Ord)]
pub struct Due {
    pub at: u32,
    pub line: u8,
}

// The records stand in order of their numbers, and `next` is the first whose number is still to come.
#[derive(Drop)]
pub(crate) struct Schedule {
    records: Vec<Due>,
    next: usize,
    clock: u32,
    ghost order: { InOrder records.items },
    ghost gone: { Gone records.items next clock },
    ghost coming: { Coming records.items next clock },
}

// The clock stands still at its last number.
fn clock_after(clock: u32, states: u8) -> u32
    ensures { result ≡ min (clock + states) last_number }
{
    clock.saturating_add(u32::from(states))
}

// How many records from the first on have numbers up to this one, and their lines. Not by halves: nearly always they are one or two.
fn due_by(records: &[Due], until: u32) -> (usize, Lines)
    ensures count { result.0 ≡ prefix_len (λ due. nat_le due.at until) records.now }
    ensures lines { lines_of result.1 ≡ lines_in (take result.0 records.now) }
{
    let mut lines = Lines::empty();
    for (count, due) in records.iter().enumerate() {
        if due.at > until {
            return (count, lines);
        }
        if let Ok(line) = Line::try_from(due.line) {
            lines.insert(line);
        }
    }
    (records.len(), lines)
}

impl Schedule {
    // The records may come in any order, and several for one number.
    pub(crate) fn new(mut records: Vec<Due>) -> Schedule
        ensures clock { result.clock ≡ 0 }
        ensures same { scheduled result.records.items ≡ scheduled records.items }
    {
        records.sort_unstable();
        // A record of number 0 never rises: the clock starts there, and does not move to it.
        let (next, _) = due_by(records.as_slice(), 0);
        Schedule {
            records,
            next,
            clock: 0,
        }
    }

    // Moves the clock on, and answers the lines of the records that it comes to.
    pub(crate) fn advance(&mut self, states: u8) -> Lines
        ensures range { self.old.clock ≤ last_number }
        ensures clock { self.new.clock ≡ min (self.old.clock + states) last_number }
        ensures same { self.new.records ≡ self.old.records }
        ensures lines { lines_of result ≡ due_in self.old.records.items self.old.clock self.new.clock }
    {
        let until = clock_after(self.clock, states);
        let (due, lines) = due_by(&self.records[self.next..], until);
        self.next += due;
        self.clock = until;
        lines
    }
}
