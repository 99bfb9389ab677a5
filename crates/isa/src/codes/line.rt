// irf, a line by its number; above 10, for which no caller asks, it is read as 10.
ghost use Rattle.std.proofs.Common.{rules};
ghost use Rattle.isa.specs.Again.{line_again};
ghost use Rattle.isa.specs.Codes.{line_coded};
ghost use Rattle.lines.specs.Numbers.{number_of};

use crate::codes::Operand;
use lines::Line;

#[tactic(auto, unfolding(crate::specs::Codes::line_coded))]
impl Operand for Line {
    ghost limit = { 11 };

    ghost at = { line_coded };

    ghost code = { number_of };

    ghost again = { line_again };

    ghost low = { Prim.search rules };

    fn at(bits: u8) -> Line {
        Line::try_from(bits).unwrap_or(Line::Fst)
    }

    fn code(self) -> u8 {
        self.number()
    }
}
