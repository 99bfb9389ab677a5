// What is counted of one interrupt line, and what clears its mark.
ghost use Rattle.std.specs.Prelude.{◌≡◌, ◌+◌, ◌<◌};
ghost use Rattle.requests.specs.Request.{last, cleared_in};

#[derive(Clone, Copy, PartialEq, Eq, Debug, Default)]
pub struct Tally {
    pub signals: u64,
    // signals while the mark was set already
    pub merged: u64,
    // marks cleared by an entry
    pub entered: u64,
    // marks cleared by SKIT or SKNIT
    pub tested: u64,
    // marks cleared by a reset
    pub dropped: u64,
}

#[derive(Clone, Copy)]
pub(crate) enum Cause {
    Entry,
    // SKIT or SKNIT
    Test,
    Reset,
}

impl Tally {
    // With one mark more cleared.
    pub(crate) fn with_cleared(self, cause: Cause) -> Tally
        requires { self.entered + self.tested + self.dropped < last }
        ensures { result ≡ cleared_in cause self }
    {
        match cause {
            Cause::Entry => Tally {
                entered: self.entered + 1,
                ..self
            },
            Cause::Test => Tally {
                tested: self.tested + 1,
                ..self
            },
            Cause::Reset => Tally {
                dropped: self.dropped + 1,
                ..self
            },
        }
    }
}
