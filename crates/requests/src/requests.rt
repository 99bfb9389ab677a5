// The mark and the tally of each line, which account for every signal.
ghost use Rattle.std.specs.Prelude.{ℕ};
ghost use Rattle.requests.specs.Request.{Whole};
ghost use Rattle.requests.specs.At.{request_at};

use crate::tally::Tally;
use lines::Lines;

mod changes;
mod reads;

// Contracts see them through `requests_of`, a function from numbers, which a model's value cannot be.
// The marks stand apart from the tallies as a set of bits, so that a step's pick is one test while nothing waits.
#[derive(Clone, Copy)]
pub struct Requests {
    marks: Lines,
    tallies: [Tally; 11],
    ghost whole: { (k : ℕ) → Whole (request_at marks tallies k) },
}
