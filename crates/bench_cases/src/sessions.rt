// Sessions with the listings that they print.
use session::play::{Outcome, play};
use session::printout::printout;
use std::alloc::Global;
use std::process::Abort;
use std::test::Fail;

fn prints(rt: &impl Abort, heap: Global, session: &[u8], text: &[u8]) -> Result<(), Fail> {
    let listing = printout(heap, session)?;
    assert_eq!(rt; listing.as_slice(), text);
    Ok(())
}

#[test]
fn sheets(rt: HostRuntime) -> Result<(), Fail> {
    let heap = rt.alloc();
    let bench =
        b"PC 0000 SP 0000 EA 0000 PSW 00\nV 00 A 00 B 00 C 00 D 00 E 00 H 00 L 00\nM 0 0 0 0\n";
    let third =
        b"PC 0003 SP 0000 EA 0000 PSW 00\nV 00 A 00 B 00 C 00 D 00 E 00 H 00 L 00\nM 0 0 0 0\n";
    let mixed =
        b"PC 0000 SP ABCD EA 0000 PSW 7D\nV 00 A 00 B 00 C 00 D 00 E 00 H 00 L FA\nM 0 0 0 0\n";
    prints(&rt, heap, &[8], bench)?;
    prints(&rt, heap, &[4, 19, 3, 0, 8], third)?;
    prints(
        &rt,
        heap,
        &[
            4, 18, 0xcd, 0xab, 4, 20, 0x7d, 0, 4, 7, 0xfa, 0, 4, 15, 1, 0, 8,
        ],
        mixed,
    )
}

#[test]
fn faults(rt: HostRuntime) -> Result<(), Fail> {
    let heap = rt.alloc();
    prints(&rt, heap, &[], b"F 10 0 0\n")?;
    prints(&rt, heap, &[9], b"F 8 0 0\n")?;
    prints(&rt, heap, &[1, 0, 0], b"F 9 0 0\n")?;
    prints(&rt, heap, &[3, 0, 1], b"F 10 1 3\n")?;
    prints(&rt, heap, &[8, 8], b"F 10 1 1\n")?;
    prints(&rt, heap, &[8, 3, 0, 0], b"F 10 1 1\n")?;
    prints(&rt, heap, &[8, 0], b"F 8 1 1\n")?;
    prints(&rt, heap, &[3, 0, 1, 4, 21, 0, 0, 8], b"F 1 1 3\n")?;
    prints(&rt, heap, &[4, 20, 0xff, 0, 8], b"F 2 0 0\n")?;
    prints(&rt, heap, &[4, 0, 0, 1, 8], b"F 2 0 0\n")
}

/// The kinds that run a core are answered as unknown until it runs, also behind END and with a body cut short.
#[test]
fn kinds_that_do_not_play_yet(rt: HostRuntime) -> Result<(), Fail> {
    let heap = rt.alloc();
    prints(&rt, heap, &[5, 10, 0, 0, 0, 8], b"F 8 0 0\n")?;
    prints(&rt, heap, &[8, 6], b"F 8 1 1\n")?;
    prints(&rt, heap, &[7, 3, 0, 0, 8], b"F 8 0 0\n")
}

#[test]
fn the_longest_session(rt: HostRuntime) -> Result<(), Fail> {
    let heap = rt.alloc();
    let sheet =
        b"PC 0000 SP 0000 EA 0000 PSW 00\nV 00 A 00 B 00 C 00 D 00 E 00 H 00 L 00\nM 0 0 0 0\n";
    let mut session = vec![in heap; 3; 16384]?;
    assert!(rt; session.len() == 16384);
    session[16383] = 8;
    prints(&rt, heap, &session, sheet)?;
    session.push(8)?;
    prints(&rt, heap, &session, b"F 12 0 0\n")
}

/// Plays a session on so many bytes 11H with so much room for the listing: the outcome and the first byte of the listing.
fn played(heap: Global, session: &[u8], length: usize, room: usize) -> Result<(Outcome, u8), Fail> {
    let mut listing = [0xee; 2048];
    let outcome = play(
        session,
        vec![in heap; 0x11; length]?,
        &mut listing[0..room.min(2048)],
    );
    Ok((outcome, listing[0]))
}

#[test]
fn refusals_before_anything_is_read(rt: HostRuntime) -> Result<(), Fail> {
    let heap = rt.alloc();
    let long = vec![in heap; 8; 16385]?;
    let (short, first) = played(heap, &long, 1, 2047)?;
    assert_eq!(rt; (short.written, first, short.memory.len()), (0, 0xee, 1));
    assert_eq!(rt; short.fault.ok_or("played")?.number(), 11);
    let (long, first) = played(heap, &long, 1, 2048)?;
    assert_eq!(rt; (long.written, first), (0, 0xee));
    assert_eq!(rt; long.fault.ok_or("played")?.number(), 12);
    Ok(())
}

#[test]
fn a_fault_keeps_what_was_loaded_before(rt: HostRuntime) -> Result<(), Fail> {
    let session = [
        1, 5, 0, 0x22, 3, 0, 1, 1, 6, 0, 0x33, 4, 21, 0, 0, 1, 7, 0, 0x44, 8,
    ];
    let (outcome, first) = played(rt.alloc(), &session, 16, 2048)?;
    assert_eq!(rt; (outcome.written, first), (9, b'F'));
    let fault = outcome.fault.ok_or("played")?;
    assert_eq!(rt;
        (fault.number(), fault.place().number, fault.place().offset),
        (1, 3, 11)
    );
    assert_eq!(rt; outcome.memory.get(5).copied(), Some(0x22));
    assert_eq!(rt; outcome.memory.get(6).copied(), Some(0x33));
    assert_eq!(rt; outcome.memory.get(7).copied(), Some(0x11));
    Ok(())
}

/// FIX 8000H, then a page and a cell below it: both load all the same.
#[test]
fn fixed_addresses_load(rt: HostRuntime) -> Result<(), Fail> {
    let mut session = [0x55; 266];
    session[0] = 3;
    session[1] = 0x00;
    session[2] = 0x80;
    session[3] = 2;
    session[4] = 0x10;
    session[261] = 1;
    session[262] = 0x02;
    session[263] = 0x10;
    session[264] = 0x66;
    session[265] = 8;
    let (outcome, _) = played(rt.alloc(), &session, 65536, 2048)?;
    assert!(rt; outcome.fault.is_none());
    assert_eq!(rt; outcome.memory.get(0x0fff).copied(), Some(0x11));
    assert_eq!(rt; outcome.memory.get(0x1000).copied(), Some(0x55));
    assert_eq!(rt; outcome.memory.get(0x1002).copied(), Some(0x66));
    assert_eq!(rt; outcome.memory.get(0x10ff).copied(), Some(0x55));
    assert_eq!(rt; outcome.memory.get(0x1100).copied(), Some(0x11));
    Ok(())
}

#[test]
fn a_short_memory_takes_what_it_reaches(rt: HostRuntime) -> Result<(), Fail> {
    let session = [1, 0, 0, 0x22, 1, 1, 0, 0x33, 1, 0xff, 0xff, 0x44, 8];
    let (outcome, _) = played(rt.alloc(), &session, 1, 2048)?;
    assert!(rt; outcome.fault.is_none());
    assert_eq!(rt; outcome.memory.as_slice(), [0x22_u8].as_slice());
    Ok(())
}
