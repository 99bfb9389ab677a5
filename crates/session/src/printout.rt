// What the program prints of a session.
ghost use Rattle.std.specs.Prelude.{◌≡◌, IfOk};
ghost use Rattle.session.specs.Play.{printed};

use crate::play::{Outcome, ROOM, play_listed};
use std::alloc::{AllocError, Global};

/// How much memory the program plays a session on: a byte for each address.
const ADDRESSES: usize = 65536;

/// Plays a session on a memory of zeros; the text of its listing.
pub fn printout(heap: Global, session: &[u8]) -> Result<Vec<u8>, AllocError>
    ensures { IfOk result (λ text. text.items ≡ printed session.now) }
{
    let memory = vec![in heap; 0; ADDRESSES]?;
    let mut listing = [0; ROOM];
    let Outcome { written, .. } = play_listed(session, memory, &mut listing);
    Vec::from_slice(heap, &listing[0..written])
}
