// What tests and the modes of the core cost.
ghost use Rattle.isa.specs.Costs.{control_cost};

use crate::costs::Costs;
use crate::instructions::Control;

impl Costs for Control {
    ghost cost = { control_cost };

    fn length(self) -> u8 {
        match self {
            Control::Nop | Control::Ei | Control::Di => 1,
            Control::Bit(_) | Control::Sk(_) | Control::Skn(_) | Control::Skit(_) => 2,
            Control::Sknit(_) | Control::Hlt => 2,
        }
    }

    fn states(self) -> u8 {
        match self {
            Control::Nop | Control::Ei | Control::Di => 4,
            Control::Sk(_) | Control::Skn(_) | Control::Skit(_) | Control::Sknit(_) => 8,
            Control::Bit(_) => 10,
            Control::Hlt => 11,
        }
    }

    fn skipped(self) -> u8 {
        match self {
            Control::Nop | Control::Ei | Control::Di => 4,
            Control::Bit(_) => 7,
            Control::Sk(_) | Control::Skn(_) | Control::Skit(_) | Control::Sknit(_) => 8,
            Control::Hlt => 8,
        }
    }
}
