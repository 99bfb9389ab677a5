// The kinds of records.
ghost use Rattle.std.specs.Prelude.{◌≡◌, ok_or};
ghost use Rattle.record.specs.Wire.{code, kind_of, body_length};
ghost use Rattle.record.specs.declared.fault.RecordFault.TheVariants.{UnknownKind};

use crate::fault::RecordFault;

/// A kind, as the byte that a record of it begins with.
#[derive(Clone, Copy, PartialEq, Eq, Debug)]
pub enum Kind {
    Cell = 1,
    Page = 2,
    Fix = 3,
    Set = 4,
    Grant = 5,
    Signal = 6,
    Reset = 7,
    End = 8,
}

impl From<Kind> for u8 {
    ghost from_gives = { λ kind byte. byte ≡ code kind };

    fn from(kind: Kind) -> u8 {
        kind as u8
    }
}

impl TryFrom<u8> for Kind {
    type Error = RecordFault;

    ghost try_from_gives = { λ byte kind. kind ≡ ok_or (kind_of byte) UnknownKind };

    fn try_from(byte: u8) -> Result<Kind, RecordFault> {
        match byte {
            1 => Ok(Kind::Cell),
            2 => Ok(Kind::Page),
            3 => Ok(Kind::Fix),
            4 => Ok(Kind::Set),
            5 => Ok(Kind::Grant),
            6 => Ok(Kind::Signal),
            7 => Ok(Kind::Reset),
            8 => Ok(Kind::End),
            _ => Err(RecordFault::UnknownKind),
        }
    }
}

impl Kind {
    /// Every kind, in the order of the bytes.
    pub const ALL: [Kind; 8] = [
        Kind::Cell,
        Kind::Page,
        Kind::Fix,
        Kind::Set,
        Kind::Grant,
        Kind::Signal,
        Kind::Reset,
        Kind::End,
    ];

    /// How many bytes follow the kind.
    pub fn body_length(self) -> usize
        ensures { result ≡ body_length self }
    {
        match self {
            Kind::Cell => 3,
            Kind::Page => 257,
            Kind::Fix => 2,
            Kind::Set => 3,
            Kind::Grant => 4,
            Kind::Signal => 1,
            Kind::Reset => 0,
            Kind::End => 0,
        }
    }
}
