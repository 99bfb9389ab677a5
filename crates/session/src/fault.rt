// What a session comes home with: a register's or a record's fault, whole, and the record that it came at.
ghost use Rattle.std.specs.Prelude.{◌≡◌, Some};
ghost use Rattle.session.specs.declared.fault.SessionFault.TheVariants.{Register, Broken};
ghost use Rattle.session.specs.Faults.{session_number, session_place, session_record, session_text, place_text};

use record::fault::RecordFault;
use registers::fault::RegisterFault;
use std::error::Error;
use std::fmt;

/// A record of a session: its number and the offset of its kind byte, both from 0.
#[derive(Clone, Copy, PartialEq, Eq, Debug, Default)]
pub struct Place {
    pub number: usize,
    pub offset: usize,
}

impl fmt::Display for Place {
    ghost output = { λ place. Some (place_text place) };

    fn fmt<W: fmt::Write>(&self, f: &mut fmt::Formatter<W>) -> fmt::Result {
        let number = self.number;
        let offset = self.offset;
        write!(f, "record {number} at offset {offset}")
    }
}

/// A fault and the record that it came at.
#[derive(Clone, Copy, PartialEq, Eq, Debug)]
pub struct At<F> {
    pub fault: F,
    pub place: Place,
}

#[derive(Clone, Copy, PartialEq, Eq, Debug)]
pub enum SessionFault {
    /// A register could not be set.
    Register(RegisterFault, Place),
    /// A record could not be read.
    Broken(RecordFault, Place),
    /// A record stands where none of its kind may, or END is missing.
    OutOfPlace(Place),
    /// The listing buffer is under 2,048 bytes.
    ListingShort,
    /// The session is over 16,384 bytes.
    SessionLong,
}

impl From<At<RegisterFault>> for SessionFault {
    ghost from_gives = { λ a f. f ≡ Register a.fault a.place };

    fn from(at: At<RegisterFault>) -> SessionFault {
        SessionFault::Register(at.fault, at.place)
    }
}

impl From<At<RecordFault>> for SessionFault {
    ghost from_gives = { λ a f. f ≡ Broken a.fault a.place };

    fn from(at: At<RecordFault>) -> SessionFault {
        SessionFault::Broken(at.fault, at.place)
    }
}

impl SessionFault {
    /// The refusal's number: the register's or the record's own. A method, since `u8::from(fault)` would not say what the byte counts.
    pub fn number(self) -> u8
        ensures { result ≡ session_number self }
    {
        match self {
            SessionFault::Register(fault, _) => fault.number(),
            SessionFault::Broken(fault, _) => fault.number(),
            SessionFault::OutOfPlace(_) => 10,
            SessionFault::ListingShort => 11,
            SessionFault::SessionLong => 12,
        }
    }

    /// The record that it came at, if it came at one.
    pub fn record(self) -> Option<Place>
        ensures { result ≡ session_record self }
    {
        match self {
            SessionFault::Register(_, place)
            | SessionFault::Broken(_, place)
            | SessionFault::OutOfPlace(place) => Some(place),
            SessionFault::ListingShort | SessionFault::SessionLong => None,
        }
    }

    /// The record that a fault's line names: 0 and 0 where the fault came at none.
    pub fn place(self) -> Place
        ensures { result ≡ session_place self }
    {
        self.record().unwrap_or_default()
    }
}

impl fmt::Display for SessionFault {
    ghost output = { λ fault. Some (session_text fault) };

    fn fmt<W: fmt::Write>(&self, f: &mut fmt::Formatter<W>) -> fmt::Result {
        match self {
            SessionFault::Register(fault, place) => write!(f, "{place}: {fault}"),
            SessionFault::Broken(fault, place) => write!(f, "{place}: {fault}"),
            SessionFault::OutOfPlace(place) => write!(f, "{place}: no such record may stand here"),
            SessionFault::ListingShort => write!(f, "the listing buffer is too short"),
            SessionFault::SessionLong => write!(f, "the session is too long"),
        }
    }
}

impl Error for SessionFault {}
