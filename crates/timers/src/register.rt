// The special registers that the timers have.
ghost use Rattle.std.specs.Prelude.{◌≡◌};
ghost use Rattle.timers.specs.Registers.{register_at};

#[derive(Clone, Copy)]
pub(crate) enum Register {
    Tmm,
    Tm0,
    Tm1,
}

impl Register {
    // None for a code that the timers do not have.
    pub(crate) fn at(code: u8) -> Option<Register>
        ensures { result ≡ register_at code }
    {
        match code {
            0x0d => Some(Register::Tmm),
            0x1a => Some(Register::Tm0),
            0x1b => Some(Register::Tm1),
            _ => None,
        }
    }
}
