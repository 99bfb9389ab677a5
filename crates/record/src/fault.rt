// Why a record is not read or written.
ghost use Rattle.std.specs.Prelude.{◌≡◌, Some, codes};
ghost use Rattle.record.specs.Wire.{fault_number, fault_text};

use std::error::Error;
use std::fmt;

/// A refusal, as its number.
#[derive(Clone, Copy, PartialEq, Eq, Debug)]
pub enum RecordFault {
    /// The kind is none of 1 to 8.
    UnknownKind = 8,
    /// There is no kind byte, or the body is cut short.
    CutShort = 9,
    /// The buffer is too short for the record, or a page has not 256 bytes.
    NoRoom = 13,
}

impl RecordFault {
    /// The refusal's number, by which a listing names it. A method, since `u8::from(fault)` would not say what the byte counts.
    pub fn number(self) -> u8
        ensures { result ≡ fault_number self }
    {
        self as u8
    }
}

impl fmt::Display for RecordFault {
    ghost output = { λ fault. Some (fault_text fault) };

    fn fmt<W: fmt::Write>(&self, f: &mut fmt::Formatter<W>) -> fmt::Result {
        f.write_str(match self {
            RecordFault::UnknownKind => "no record has this kind",
            RecordFault::CutShort => "the record is cut short",
            RecordFault::NoRoom => "no room for the record",
        })
    }
}

impl Error for RecordFault {}
