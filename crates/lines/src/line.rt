// The eleven interrupt lines by the chip's names, and their numbers.
ghost use Rattle.std.specs.Prelude.{◌≡◌, ◌<◌, Some};
ghost use Rattle.lines.specs.Numbers.{number_of, line_at, IsLine, refusal};
ghost use Rattle.lines.specs.Sets.{bit};

use std::error::Error;
use std::fmt;

#[derive(Clone, Copy, PartialEq, Eq, Debug)]
pub enum Line {
    Nmi,
    Ft0,
    Ft1,
    F1,
    F2,
    Fe0,
    Fe1,
    Fein,
    Fad,
    Fsr,
    Fst,
}

// A number above 10, which no line has.
#[derive(Clone, Copy, PartialEq, Eq, Debug)]
pub struct NoSuchLine(pub u8);

impl Line {
    // The lines in order, so that the place of each is its number.
    pub const ALL: [Line; 11] = [
        Line::Nmi,
        Line::Ft0,
        Line::Ft1,
        Line::F1,
        Line::F2,
        Line::Fe0,
        Line::Fe1,
        Line::Fein,
        Line::Fad,
        Line::Fsr,
        Line::Fst,
    ];

    // From 0 for NMI to 10 for FST. A method, since as a place in an array and as a shift it should say what it counts.
    pub fn number(self) -> u8
        ensures value { result ≡ number_of self }
        ensures bound { result < 11 }
        ensures back { line_at result ≡ Some self }
    {
        self as u8
    }

    // Whether the line's bit of a number is 1.
    pub(crate) fn is_in(self, bits: u16) -> bool
        ensures { result ≡ bit bits (number_of self) }
    {
        (bits >> self.number()) % 2 == 1
    }
}

impl TryFrom<u8> for Line {
    type Error = NoSuchLine;

    ghost try_from_gives = { IsLine };

    fn try_from(number: u8) -> Result<Self, NoSuchLine> {
        match number {
            0 => Ok(Line::Nmi),
            1 => Ok(Line::Ft0),
            2 => Ok(Line::Ft1),
            3 => Ok(Line::F1),
            4 => Ok(Line::F2),
            5 => Ok(Line::Fe0),
            6 => Ok(Line::Fe1),
            7 => Ok(Line::Fein),
            8 => Ok(Line::Fad),
            9 => Ok(Line::Fsr),
            10 => Ok(Line::Fst),
            _ => Err(NoSuchLine(number)),
        }
    }
}

impl fmt::Display for NoSuchLine {
    ghost output = { λ e. Some (refusal e.0) };

    fn fmt<W: fmt::Write>(&self, f: &mut fmt::Formatter<W>) -> fmt::Result {
        write!(f, "no line has number {}", self.0)
    }
}

impl Error for NoSuchLine {}
