// Cases of the lines and their marks, the bench panel and the timers, each a call on a line of its own.
#![tactic(auto)]

#[cfg(test)]
mod bench;
#[cfg(test)]
mod lines_and_levels;
#[cfg(test)]
mod marks;
#[cfg(test)]
mod timing;

#[cfg(test)]
mod ask {
    use lines::{Line, Lines};
    use panel::Call;
    use std::process::Abort;

    pub const TMM: u8 = 0x0d;

    pub const TM0: u8 = 0x1a;

    pub const TM1: u8 = 0x1b;

    pub fn put(code: u8, byte: u8) -> Call {
        Call::Put { code, byte }
    }

    pub fn pass(states: u32) -> Call {
        Call::Pass { states }
    }

    // Whether a set has these lines and no others.
    pub fn just(mut found: Lines, expected: &[Line]) -> bool {
        for line in expected {
            if !found.has(*line) {
                return false;
            }
            found.remove(*line);
        }
        found.is_empty()
    }

    pub fn rise(rt: &impl Abort, found: Lines, expected: &[Line]) {
        assert!(rt; just(found, expected));
    }
}
