// The six interrupt levels, the address that each is entered at, and the mark that an entry clears.
ghost use Rattle.std.specs.Prelude.{◌≡◌, ◌<◌};
ghost use Rattle.lines.specs.Levels.{level_at, level_number, vector_of, one_of, entered_by};

use crate::line::Line;

// The highest first.
#[derive(Clone, Copy, PartialEq, Eq, Debug)]
pub enum Level {
    // NMI
    Nmi,
    // FT0 and FT1
    Timer,
    // F1 and F2
    External,
    // FE0 and FE1
    Counter,
    // FEIN and FAD
    Analog,
    // FSR and FST
    Serial,
}

// The unmasked line of a pair, if the other is masked.
fn one_of(first: Line, second: Line, masks: u16) -> Option<Line>
    ensures { result ≡ one_of first second masks }
{
    if first.is_in(masks) {
        Some(second)
    } else if second.is_in(masks) {
        Some(first)
    } else {
        None
    }
}

impl Level {
    // 0 for NMI, then 1 to 5 for the pairs. A method as `Line::number` is.
    pub fn number(self) -> u8
        ensures value { result ≡ level_number self }
        ensures bound { result < 6 }
        ensures back { level_at result ≡ self }
    {
        self as u8
    }

    pub fn vector(self) -> u16
        ensures { result ≡ vector_of self }
    {
        match self {
            Level::Nmi => 4,
            Level::Timer => 8,
            Level::External => 16,
            Level::Counter => 24,
            Level::Analog => 32,
            Level::Serial => 40,
        }
    }

    // The line whose mark an entry clears, where the mask is MKH and MKL as one number.
    // None for a pair that is unmasked: then both marks stand.
    pub fn entered(self, masks: u16) -> Option<Line>
        ensures { result ≡ entered_by self masks }
    {
        match self {
            Level::Nmi => Some(Line::Nmi),
            Level::Timer => one_of(Line::Ft0, Line::Ft1, masks),
            Level::External => one_of(Line::F1, Line::F2, masks),
            Level::Counter => one_of(Line::Fe0, Line::Fe1, masks),
            Level::Analog => one_of(Line::Fein, Line::Fad, masks),
            Level::Serial => one_of(Line::Fsr, Line::Fst, masks),
        }
    }
}
