// What steps a running timer's counter.
ghost use Rattle.std.specs.Prelude.{◌≡◌};
ghost use Rattle.timers.specs.Paces.{pace_of};
ghost use Rattle.timers.specs.Timing.{stops0, choice0};

#[derive(Clone, Copy)]
pub(crate) enum Pace {
    Every4,
    Every128,
    Never,
    // the matches of timer 0, which are carried over
    Carried,
}

impl Pace {
    // What TMM says of timer 0, and of timer 1 where it stands three bits lower. None for a timer that is stopped.
    pub(crate) fn of_mode(tmm: u8) -> Option<Pace>
        ensures { result ≡ pace_of (stops0 tmm) (choice0 tmm) }
    {
        if tmm / 16 % 2 == 1 {
            return None;
        }
        Some(match tmm / 4 % 4 {
            0 => Pace::Every4,
            1 => Pace::Every128,
            2 => Pace::Never,
            _ => Pace::Carried,
        })
    }
}
