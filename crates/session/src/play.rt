// Plays a session on a memory, and lists what came of it.
ghost use Rattle.std.specs.Prelude.{◌≡◌, ◌≤◌, length};
ghost use Rattle.session.specs.Play.{played, ending, listed};
ghost use Rattle.session.specs.Text.{Puts};

use crate::fault::SessionFault;
use crate::listing::Listing;
use crate::load::Loader;
use crate::machine::Machine;

/// The fewest bytes of a listing buffer: enough for any listing.
pub const ROOM: usize = 2048;

/// The most bytes of a session.
pub const LONGEST: usize = 16384;

/// What playing a session comes to: the memory, how much was written at the start of the listing, and the fault.
/// Memory and length are there after a fault too, since a fault has a line as a core has its sheet, so this is no `Result`.
#[derive(Drop)]
pub struct Outcome {
    pub memory: Vec<u8>,
    pub written: usize,
    pub fault: Option<SessionFault>,
}

impl Outcome {
    /// Refused before anything is read or written.
    fn refused(memory: Vec<u8>, fault: SessionFault) -> Outcome
        ensures { result ≡ record { memory = memory; written = 0; fault = Some fault } }
    {
        Outcome {
            memory,
            written: 0,
            fault: Some(fault),
        }
    }
}

/// Plays a session on a memory, nothing of it fixed at first, and writes the sheet or the line of the fault.
pub fn play(session: &[u8], memory: Vec<u8>, listing: &mut [u8]) -> Outcome
    ensures fault { result.fault ≡ (played (length listing.old) session.now (memory.items)).fault }
    ensures memory { result.memory.items ≡ (played (length listing.old) session.now (memory.items)).memory }
    ensures listing { Puts listing.old 0 (played (length listing.old) session.now (memory.items)).text listing.new result.written }
{
    if listing.len() < ROOM {
        return Outcome::refused(memory, SessionFault::ListingShort);
    }
    if session.len() > LONGEST {
        return Outcome::refused(memory, SessionFault::SessionLong);
    }
    let mut loader = Loader::new(memory);
    let answer = loader.load_all(session);
    list(loader, answer, listing)
}

/// Writes the sheet of what was loaded, or the line of the fault.
fn list(loader: Loader, answer: Result<(), SessionFault>, listing: &mut [u8]) -> Outcome
    requires { 2048 ≤ length listing.old }
    ensures fault { result.fault ≡ (ending loader answer).fault }
    ensures memory { result.memory.items ≡ (ending loader answer).memory }
    ensures listing { Puts listing.old 0 (ending loader answer).text listing.new result.written }
{
    let mut listing = Listing {
        buffer: listing,
        at: 0,
    };
    match answer {
        Ok(()) => {
            let Machine { core, board, .. } = loader.into_machine();
            listing.sheet(&core.registers);
            Outcome {
                memory: board.into_memory(),
                written: listing.at,
                fault: None,
            }
        }
        Err(fault) => {
            listing.fault(fault);
            Outcome {
                memory: loader.memory,
                written: listing.at,
                fault: Some(fault),
            }
        }
    }
}

/// Plays a session as `play` does, and writes the line of the fault for a session that is too long as well.
pub fn play_listed(session: &[u8], memory: Vec<u8>, listing: &mut [u8]) -> Outcome
    ensures fault { result.fault ≡ (listed (length listing.old) session.now (memory.items)).fault }
    ensures memory { result.memory.items ≡ (listed (length listing.old) session.now (memory.items)).memory }
    ensures listing { Puts listing.old 0 (listed (length listing.old) session.now (memory.items)).text listing.new result.written }
{
    if listing.len() >= ROOM && session.len() > LONGEST {
        return list(Loader::new(memory), Err(SessionFault::SessionLong), listing);
    }
    play(session, memory, listing)
}
