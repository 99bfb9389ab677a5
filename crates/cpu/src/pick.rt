// The level that is picked, and the mode that it leaves the core in.
ghost use Rattle.std.specs.Prelude.{◌≡◌};
ghost use Rattle.requests.specs.Of.{requests_of};
ghost use Rattle.cpu.specs.Picking.{masks_of, picked, mode_of, may_enter};

use lines::Level;
use registers::bench::Core;
use requests::Requests;

/// What a core goes on with if no interrupt is entered.
#[derive(Clone, Copy, PartialEq, Eq, Debug)]
pub(crate) enum Mode {
    Running,
    Halted,
    Skipping,
}

/// MKH and MKL as one number.
pub(crate) fn masks(core: &Core) -> u16
    ensures { result ≡ masks_of core.now }
{
    u16::from_be_bytes([core.mkh, core.mkl])
}

/// The highest level with a waiting line that is not masked.
pub(crate) fn pick(core: &Core, requests: &Requests) -> Option<Level>
    ensures { result ≡ picked core.now (requests_of requests.now) }
{
    requests.marks().unmasked(masks(core)).level()
}

/// A pick ends a halt.
pub(crate) fn mode_with(core: &Core, pick: Option<Level>) -> Mode
    ensures { result ≡ mode_of pick core.now }
{
    if core.halted && pick.is_none() {
        Mode::Halted
    } else if core.registers.flags.skip {
        Mode::Skipping
    } else {
        Mode::Running
    }
}

/// NMI is entered always; another level if interrupts are enabled, but not right after EI.
pub(crate) fn is_open(core: &Core, level: Level) -> bool
    ensures { result ≡ may_enter level core.now }
{
    match level {
        Level::Nmi => true,
        _ => core.interrupts && !core.after_ei,
    }
}
