// How a panel takes codes and numbers of states.
ghost use Rattle.std.specs.Prelude.{◌≡◌, ◌<◌, ◌≤◌};
ghost use Rattle.panel.specs.Rules.{code_of, states_of};

// There are 64 special register codes.
pub fn code_of(code: u8) -> u8
    ensures value { result ≡ code_of code }
    ensures bound { result < 64 }
{
    code % 64
}

// No step of the processor counts more than 59 states.
pub fn states_of(states: u32) -> u8
    ensures value { result ≡ states_of states }
    ensures bound { result ≤ 59 }
{
    states.min(59) as u8
}
