// The bench panel, which has a byte for each code, and a schedule with its clock.
use crate::schedule::Schedule;

pub(crate) mod methods;

// Contracts see it through `bench_of`, in which the schedule is a function, as no model's value can be.
#[derive(Drop)]
pub struct BenchPanel {
    bytes: [u8; 64],
    schedule: Schedule,
}
