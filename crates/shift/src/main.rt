// Reads a session from standard input, plays it and writes its listing to standard output.
#![tactic(auto)]

use session::play::LONGEST;
use session::printout::printout;
use std::io::{Read, Write};

// One byte more than a session may have tells one that is too long, and an input without end is not read on.
fn main(rt: HostRuntime) -> anyhow::Result<()> {
    let mut session = Vec::new(rt.alloc());
    rt.stdin()
        .take(LONGEST as u64 + 1)
        .read_to_end(&mut session)?;
    let listing = printout(rt.alloc(), &session)?;
    let mut out = rt.stdout();
    out.write_all(&listing)?;
    out.flush()?;
    Ok(())
}
