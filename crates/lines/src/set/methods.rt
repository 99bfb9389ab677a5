// What can be done with a set of lines.
ghost use Rattle.std.specs.Prelude.{◌≡◌, Decides, option_map};
ghost use Rattle.lines.specs.Numbers.{number_of};
ghost use Rattle.lines.specs.Sets.{none, joined, with_line, without, unmasked_by, level_of};
ghost use Rattle.lines.specs.Levels.{highest_of, level_number};
ghost use Rattle.lines.specs.Of.{lines_of};

use super::Lines;
use crate::level::Level;
use crate::line::Line;

impl Lines {
    // No line. A default by hand would be no shorter, and none can be derived beside a ghost field.
    pub fn empty() -> Lines
        ensures { lines_of result ≡ none }
    {
        Lines { bits: 0 }
    }

    pub fn is_empty(self) -> bool
        ensures { Decides result (lines_of self ≡ none) }
    {
        self.bits == 0
    }

    #[tactic(auto, unfolding(crate::specs::Of::lines_of))]
    pub fn has(self, line: Line) -> bool
        ensures { result ≡ lines_of self (number_of line) }
    {
        line.is_in(self.bits)
    }

    pub fn insert(&mut self, line: Line)
        ensures { lines_of self.new ≡ with_line (lines_of self.old) (number_of line) }
    {
        self.bits |= 1 << line.number();
    }

    pub fn remove(&mut self, line: Line)
        ensures { lines_of self.new ≡ without (lines_of self.old) (number_of line) }
    {
        self.bits ^= self.bits & (1 << line.number());
    }

    pub fn join(&mut self, other: Lines)
        ensures { lines_of self.new ≡ joined (lines_of self.old) (lines_of other) }
    {
        self.bits |= other.bits;
    }

    // The lines whose bit of the mask, MKH and MKL as one number, is 0. NMI has no mask.
    pub fn unmasked(self, masks: u16) -> Lines
        ensures { lines_of result ≡ unmasked_by masks (lines_of self) }
    {
        Lines {
            bits: self.bits ^ (self.bits & (masks / 2 * 2)),
        }
    }

    // The highest interrupt level with a line in the set, which is that of the lowest line. Nearly always there is none, so that is tested first.
    pub fn level(self) -> Option<Level>
        ensures value { result ≡ highest_of (lines_of self) }
        ensures number { option_map level_number result ≡ level_of (lines_of self) }
    {
        if self.is_empty() {
            return None;
        }
        match self.bits.trailing_zeros() {
            0 => Some(Level::Nmi),
            1 | 2 => Some(Level::Timer),
            3 | 4 => Some(Level::External),
            5 | 6 => Some(Level::Counter),
            7 | 8 => Some(Level::Analog),
            9 | 10 => Some(Level::Serial),
            _ => None,
        }
    }
}
