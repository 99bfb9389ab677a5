// The timers before a bench panel.
use crate::ask::{TM0, TM1, TMM, pass, put, rise};
use lines::Line;
use panel::{BenchPanel, Call, Due, Panel, answers};
use std::alloc::Global;
use std::process::Abort;
use std::test::Fail;
use timers::{Timers, timers_answers};

// Modes of TMM, with the other timer stopped but in the last.
const TIMER0_EVERY_4: u8 = 0xe0;

const TIMER0_EVERY_128: u8 = 0xe4;

const TIMER0_NEVER: u8 = 0xec;

const TIMER1_EVERY_4: u8 = 0x1c;

const TIMER1_EVERY_128: u8 = 0x3c;

const TIMER1_NEVER: u8 = 0x5c;

const TIMER1_BY_TIMER0: u8 = 0x60;

const BOTH_STOPPED: u8 = 0xf0;

// Timers with these registers pass states one at a time, and then `states` at once, in which `expected` rise.
fn counts(
    rt: &impl Abort,
    heap: Global,
    mode: u8,
    tm0: u8,
    tm1: u8,
    before: u32,
    states: u32,
    expected: &[Line],
) {
    let mut timers = Timers::before(BenchPanel::new(Vec::new(heap)));
    timers.put(TM0, tm0);
    timers.put(TM1, tm1);
    timers.put(TMM, mode);
    for _ in 0..before {
        let _ = timers.pass(1);
    }
    rise(rt, timers.pass(states), expected);
}

#[test]
fn timer_0(rt: HostRuntime) {
    let heap = rt.alloc();
    counts(&rt, heap, TIMER0_EVERY_4, 1, 0, 0, 3, &[]);
    counts(&rt, heap, TIMER0_EVERY_4, 1, 0, 0, 4, &[Line::Ft0]);
    counts(&rt, heap, TIMER0_EVERY_4, 1, 0, 4, 3, &[]);
    counts(&rt, heap, TIMER0_EVERY_4, 2, 0, 0, 7, &[]);
    counts(&rt, heap, TIMER0_EVERY_4, 2, 0, 7, 1, &[Line::Ft0]);
    counts(&rt, heap, TIMER0_EVERY_4, 0, 0, 1000, 23, &[]);
    counts(&rt, heap, TIMER0_EVERY_4, 0, 0, 1000, 24, &[Line::Ft0]);
    counts(&rt, heap, TIMER0_EVERY_128, 1, 0, 100, 27, &[]);
    counts(&rt, heap, TIMER0_EVERY_128, 1, 0, 100, 28, &[Line::Ft0]);
    counts(&rt, heap, TIMER0_EVERY_128, 2, 0, 200, 55, &[]);
    counts(&rt, heap, TIMER0_EVERY_128, 2, 0, 200, 56, &[Line::Ft0]);
    counts(&rt, heap, TIMER0_NEVER, 1, 0, 1000, 59, &[]);
}

#[test]
fn timer_1(rt: HostRuntime) {
    let heap = rt.alloc();
    counts(&rt, heap, TIMER1_EVERY_4, 0, 1, 0, 3, &[]);
    counts(&rt, heap, TIMER1_EVERY_4, 0, 1, 0, 4, &[Line::Ft1]);
    counts(&rt, heap, TIMER1_EVERY_128, 0, 1, 100, 27, &[]);
    counts(&rt, heap, TIMER1_EVERY_128, 0, 1, 100, 28, &[Line::Ft1]);
    counts(&rt, heap, TIMER1_NEVER, 0, 1, 1000, 59, &[]);
    counts(&rt, heap, TIMER1_BY_TIMER0, 1, 3, 0, 11, &[Line::Ft0]);
    counts(
        &rt,
        heap,
        TIMER1_BY_TIMER0,
        1,
        3,
        0,
        12,
        &[Line::Ft0, Line::Ft1],
    );
    counts(
        &rt,
        heap,
        TIMER1_BY_TIMER0,
        1,
        3,
        11,
        1,
        &[Line::Ft0, Line::Ft1],
    );
    counts(
        &rt,
        heap,
        TIMER1_BY_TIMER0,
        2,
        2,
        15,
        1,
        &[Line::Ft0, Line::Ft1],
    );
}

// 60 states would bring the fifteenth step.
#[test]
fn lengths(rt: HostRuntime) {
    let heap = rt.alloc();
    counts(&rt, heap, TIMER0_EVERY_4, 1, 0, 3, 0, &[]);
    counts(&rt, heap, TIMER0_EVERY_4, 15, 0, 0, 59, &[]);
    counts(&rt, heap, TIMER0_EVERY_4, 15, 0, 0, 60, &[]);
    counts(&rt, heap, TIMER0_EVERY_4, 15, 0, 0, u32::MAX, &[]);
    counts(&rt, heap, TIMER0_EVERY_4, 15, 0, 1, 59, &[Line::Ft0]);
    counts(&rt, heap, TIMER0_EVERY_4, 15, 0, 1, 60, &[Line::Ft0]);
    counts(&rt, heap, TIMER0_EVERY_4, 15, 0, 1, u32::MAX, &[Line::Ft0]);
}

// The bench panel has a `shows` of its own: handing over whom to ask would make each case longer.
fn shows(rt: &impl Abort, heap: Global, calls: &[Call], code: u8, byte: u8) {
    let (shown, _) = timers_answers(Vec::new(heap), calls, code, 0);
    assert_eq!(rt; shown, byte);
}

#[test]
fn registers(rt: HostRuntime) {
    let heap = rt.alloc();
    shows(&rt, heap, &[], TMM, 0xff);
    shows(&rt, heap, &[], TM0, 0);
    shows(&rt, heap, &[put(TM0, 5), put(TM1, 6)], TM0, 5);
    shows(&rt, heap, &[put(TM0, 5), put(TM1, 6)], TM1, 6);
    shows(
        &rt,
        heap,
        &[put(64 + TMM, TIMER0_EVERY_4)],
        TMM,
        TIMER0_EVERY_4,
    );
    shows(
        &rt,
        heap,
        &[put(TMM, TIMER0_EVERY_4)],
        192 + TMM,
        TIMER0_EVERY_4,
    );
    shows(&rt, heap, &[put(TMM, 3), put(5, 4), Call::Reset], TMM, 0xff);
    shows(&rt, heap, &[put(5, 4)], 64 + 5, 4);
    shows(&rt, heap, &[put(5, 4), Call::Reset], 5, 0);
}

fn rises(
    rt: &impl Abort,
    heap: Global,
    calls: &[Call],
    states: u32,
    expected: &[Line],
) -> Result<(), Fail> {
    let schedule = [Due { at: 8, line: 9 }];
    let (_, found) = timers_answers(schedule.to_vec(heap)?, calls, 0, states);
    rise(rt, found, expected);
    Ok(())
}

#[test]
fn modes(rt: HostRuntime) -> Result<(), Fail> {
    let heap = rt.alloc();
    let start = put(TM0, 2);
    let run = put(TMM, TIMER0_EVERY_4);
    let stop = put(TMM, BOTH_STOPPED);
    rises(&rt, heap, &[start, run], 8, &[Line::Ft0, Line::Fsr])?;
    rises(
        &rt,
        heap,
        &[start, put(64 + TMM, TIMER0_EVERY_4)],
        8,
        &[Line::Ft0, Line::Fsr],
    )?;
    rises(&rt, heap, &[start, run, pass(6), stop], 59, &[Line::Fsr])?;
    rises(
        &rt,
        heap,
        &[start, run, pass(6), stop, pass(2), run],
        7,
        &[],
    )?;
    rises(
        &rt,
        heap,
        &[start, run, pass(6), stop, pass(2), run],
        8,
        &[Line::Ft0],
    )?;
    rises(&rt, heap, &[start, run, pass(6), run], 1, &[])?;
    rises(
        &rt,
        heap,
        &[start, run, pass(6), run],
        2,
        &[Line::Ft0, Line::Fsr],
    )?;
    rises(
        &rt,
        heap,
        &[start, run, pass(6), Call::Reset],
        59,
        &[Line::Fsr],
    )
}

// The timers in front have the codes, so those behind them stay stopped.
#[test]
fn timers_before_timers(rt: HostRuntime) -> Result<(), Fail> {
    let schedule = [Due { at: 4, line: 9 }];
    let inner = Timers::before(BenchPanel::new(schedule.to_vec(rt.alloc())?));
    let calls = [put(TM0, 1), put(TMM, TIMER0_EVERY_4), put(5, 7)];
    let (shown, found) = answers(Timers::before(inner), &calls, 5, 4);
    assert_eq!(rt; shown, 7);
    rise(&rt, found, &[Line::Ft0, Line::Fsr]);
    Ok(())
}
