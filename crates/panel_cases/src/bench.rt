// The bench panel.
use crate::ask::{pass, put, rise};
use lines::Line;
use panel::{BenchPanel, Call, Due, Panel, bench_answers};
use std::alloc::Global;
use std::process::Abort;
use std::test::Fail;

// The timers have a `shows` of their own: handing over whom to ask would make each case longer.
fn shows(rt: &impl Abort, heap: Global, calls: &[Call], code: u8, byte: u8) {
    let (shown, _) = bench_answers(Vec::new(heap), calls, code, 0);
    assert_eq!(rt; shown, byte);
}

#[test]
fn bytes(rt: HostRuntime) {
    let heap = rt.alloc();
    shows(&rt, heap, &[], 0, 0);
    shows(&rt, heap, &[put(63, 7)], 63, 7);
    shows(&rt, heap, &[put(63, 7), put(63, 8)], 63, 8);
    shows(&rt, heap, &[put(63, 7)], 62, 0);
    shows(&rt, heap, &[put(64 + 5, 9)], 5, 9);
    shows(&rt, heap, &[put(5, 9)], 128 + 5, 9);
    shows(&rt, heap, &[put(5, 9), Call::Reset], 5, 0);
}

// Records out of order, two for one state, two lines that do not exist, and one for the clock's start.
fn rises(
    rt: &impl Abort,
    heap: Global,
    calls: &[Call],
    states: u32,
    expected: &[Line],
) -> Result<(), Fail> {
    let schedule = [
        Due { at: 100, line: 10 },
        Due { at: 3, line: 0 },
        Due { at: 0, line: 4 },
        Due { at: 5, line: 8 },
        Due { at: 3, line: 6 },
        Due { at: 3, line: 11 },
        Due { at: 3, line: 255 },
    ];
    let (_, found) = bench_answers(schedule.to_vec(heap)?, calls, 0, states);
    rise(rt, found, expected);
    Ok(())
}

#[test]
fn schedule(rt: HostRuntime) -> Result<(), Fail> {
    let heap = rt.alloc();
    rises(&rt, heap, &[], 0, &[])?;
    rises(&rt, heap, &[], 2, &[])?;
    rises(&rt, heap, &[], 3, &[Line::Nmi, Line::Fe1])?;
    rises(&rt, heap, &[pass(2)], 1, &[Line::Nmi, Line::Fe1])?;
    rises(&rt, heap, &[pass(2)], 0, &[])?;
    rises(&rt, heap, &[pass(3)], 1, &[])?;
    rises(&rt, heap, &[pass(3)], 2, &[Line::Fad])?;
    rises(&rt, heap, &[], 59, &[Line::Nmi, Line::Fe1, Line::Fad])?;
    rises(&rt, heap, &[pass(41)], 59, &[Line::Fst])?;
    rises(&rt, heap, &[pass(41)], 58, &[])?;
    rises(&rt, heap, &[pass(40)], 60, &[])?;
    rises(&rt, heap, &[pass(40)], u32::MAX, &[])?;
    rises(&rt, heap, &[pass(u32::MAX), pass(40)], 1, &[Line::Fst])?;
    rises(
        &rt,
        heap,
        &[pass(60), Call::Reset, pass(40)],
        1,
        &[Line::Fst],
    )
}

// The clock comes to its last number after 72,796,055 passes of 59 states and 50 states more, and stands still there.
#[test]
fn last_number(rt: HostRuntime) -> Result<(), Fail> {
    let schedule = [
        Due {
            at: u32::MAX,
            line: 2,
        },
        Due {
            at: u32::MAX,
            line: 9,
        },
    ];
    let mut panel = BenchPanel::new(schedule.to_vec(rt.alloc())?);
    for _ in 0..72_796_055u32 {
        let _ = panel.pass(59);
    }
    rise(&rt, panel.pass(49), &[]);
    rise(&rt, panel.pass(59), &[Line::Ft1, Line::Fsr]);
    rise(&rt, panel.pass(59), &[]);
    Ok(())
}
