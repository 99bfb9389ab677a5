// The records that load a memory and a bench core, played one after the other.
ghost use Rattle.std.specs.Prelude.{◌≡◌, ℕ, ◌+◌, ◌*◌, ◌<◌, ◌≤◌, length, IfOk, slice_set};
ghost use Rattle.record.specs.Wire.{said, kind_of};
ghost use Rattle.registers.specs.Answers.{answer_of, left_by};
ghost use Rattle.session.specs.Load.{fresh, stored, load, plays, turned, turn_answer, turn_after, load_all};

use crate::fault::{At, Place, SessionFault};
use record::fault::RecordFault;
use record::kind::Kind;
use record::types::Record;
use registers::bench::BenchCore;
use registers::fault::RegisterFault;
use std::marker::Model;

/// What a session has loaded so far.
#[derive(Drop)]
pub(crate) struct Loader {
    pub(crate) core: BenchCore,
    pub(crate) fixed_below: u16,
    pub(crate) memory: Vec<u8>,
    pub(crate) ended: bool,
}

impl Model for Loader {
    ghost use Rattle.session.specs.Load.{Loaded, loaded};

    ghost Value = { Loaded };

    ghost view = { λ l. loaded l.core l.fixed_below l.memory.items l.ended };
}

impl Loader {
    /// A bench core over a memory, nothing fixed.
    pub(crate) fn new(memory: Vec<u8>) -> Loader
        ensures { result ≡ fresh memory.items }
    {
        Loader {
            core: BenchCore::new(),
            fixed_below: 0,
            memory,
            ended: false,
        }
    }

    /// Plays a whole session, from place to place, since how long a record is shows only when it is read.
    pub(crate) fn load_all(&mut self, session: &[u8]) -> Result<(), SessionFault>
        ensures answer { result ≡ (load_all self.old session.now).1 }
        ensures after { self.new ≡ (load_all self.old session.now).0 }
    {
        let mut place = Place::default();
        while place.offset < session.len() {
            place = self.turn(session, place)?;
        }
        if !self.ended {
            return Err(SessionFault::OutOfPlace(place));
        }
        Ok(())
    }

    /// Plays the record at a place; the place behind it.
    fn turn(&mut self, session: &[u8], place: Place) -> Result<Place, SessionFault>
        requires number { place.number ≤ place.offset }
        requires offset { place.offset < length session.now }
        ensures answer { result ≡ turn_answer place (turned self.old session.now place) }
        ensures after { self.new ≡ turn_after (turned self.old session.now place) self.old }
        ensures inside { IfOk result (λ next. (place.offset < next.offset) × (next.offset ≤ length session.now) × (next.number ≤ next.offset)) }
    {
        if !kind_plays(session[place.offset]) {
            return Err(SessionFault::Broken(RecordFault::UnknownKind, place));
        }
        if self.ended {
            return Err(SessionFault::OutOfPlace(place));
        }
        let found = Record::read(session, place.offset).map_err(|fault| At { fault, place })?;
        self.load(&found.value)
            .map_err(|fault| At { fault, place })?;
        Ok(Place {
            number: place.number + 1,
            offset: place.offset + found.length,
        })
    }

    /// What one record makes.
    fn load(&mut self, record: &Record<'_>) -> Result<(), RegisterFault>
        ensures answer { result ≡ answer_of (load (said «record».now) self.old) }
        ensures after { self.new ≡ left_by (load (said «record».now) self.old) self.old }
    {
        match record {
            Record::Cell { address, byte } => store_byte(
                &mut self.memory,
                usize::from(*address),
                *byte,
            ),
            Record::Page { page, bytes } => store_page(&mut self.memory, *page, bytes),
            Record::Fix { below } => self.fixed_below = *below,
            Record::Set { register, value } => {
                self.core.set(u32::from(*register), u32::from(*value))?;
            }
            Record::End => self.ended = true,
            Record::Grant { .. } | Record::Signal { .. } | Record::Reset => {}
        }
        Ok(())
    }
}

/// Whether a kind byte plays: the kinds that run a core do not yet.
fn kind_plays(byte: u8) -> bool
    ensures { result ≡ plays (kind_of byte) }
{
    matches!(
        Kind::try_from(byte),
        Ok(Kind::Cell | Kind::Page | Kind::Fix | Kind::Set | Kind::End)
    )
}

/// Puts a byte into memory, if it reaches so far.
fn store_byte(memory: &mut Vec<u8>, address: usize, byte: u8)
    ensures { memory.new.items ≡ slice_set memory.old.items address byte }
{
    if let Some(cell) = memory.get_mut(address) {
        *cell = byte;
    }
}

/// Puts a page's bytes into memory: a loop with an index over them, as is a rule of the project (DECISIONS, "Forms").
fn store_page(memory: &mut Vec<u8>, page: u8, bytes: &[u8])
    ensures { memory.new.items ≡ stored memory.old.items (256 * page) bytes.now }
{
    let start = 256 * usize::from(page);
    for i in 0..bytes.len() {
        store_byte(memory, start + i, bytes[i]);
    }
}
