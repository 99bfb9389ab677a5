// The worked cases in one test.
ghost use Rattle.proved_cases.specs.Cases.{Worked};

use board::Board;
use board::flat::FlatBoard;
use cpu::{UndefinedCode, step};
use lines::Line;
use machine::Machine;
use panel::{BenchPanel, Panel};
use registers::bench::Core;
use std::alloc::Global;
use std::process::Abort;
use std::test::Fail;

type Bench = Machine<FlatBoard, BenchPanel>;

// A machine with a program at an address, PC there and A set.
fn bench(heap: Global, address: u16, a: u8, program: &[u8]) -> Result<Bench, Fail> {
    let mut board = FlatBoard::new(vec![in heap; 0u8; 65536]?, 0);
    for (at, byte) in (address..=u16::MAX).zip(program) {
        board.write(at, *byte);
    }
    let mut core = Core::new();
    core.registers.pc = address;
    core.registers.main.a = a;
    Ok(Machine::new(core, board, BenchPanel::new(Vec::new(heap))))
}

// SK and Z after one step.
fn compared(heap: Global, a: u8, program: &[u8]) -> Result<(bool, bool), Fail> {
    let mut machine = bench(heap, 0, a, program)?;
    step(&mut machine)?;
    let flags = machine.core.registers.flags;
    Ok((flags.skip, flags.zero))
}

// PC after one step.
fn jumped(heap: Global, address: u16, program: &[u8]) -> Result<u16, Fail> {
    let mut machine = bench(heap, address, 0, program)?;
    step(&mut machine)?;
    Ok(machine.core.registers.pc)
}

fn undefined(rt: &impl Abort, heap: Global, first: u8, second: u8) -> Result<(), Fail> {
    let mut machine = bench(heap, 0, 0, &[first, second])?;
    let code = UndefinedCode {
        address: 0,
        first,
        second,
    };
    assert_eq!(rt; step(&mut machine), Err(code));
    Ok(())
}

fn overlaid(rt: &impl Abort, heap: Global) -> Result<(), Fail> {
    let mut machine = bench(heap, 0, 0, &[0x69, 1, 0x69, 2])?;
    let first = step(&mut machine)?;
    let second = step(&mut machine)?;
    assert_eq!(rt; u16::from(first) + u16::from(second), 14);
    assert_eq!(rt; machine.core.registers.main.a, 1);
    Ok(())
}

fn entered(rt: &impl Abort, heap: Global) -> Result<(), Fail> {
    let mut machine = bench(heap, 0x1234, 0, &[])?;
    machine.core.registers.sp = 2;
    machine.requests.signal(Line::Nmi);
    assert_eq!(rt; step(&mut machine)?, 16);
    assert_eq!(rt; machine.board.read(0xffff), 0x34);
    assert_eq!(rt; machine.board.read(0), 0x12);
    assert_eq!(rt; machine.core.registers.pc, 4);
    Ok(())
}

// The cases hold for every panel, whatever its standing.
fn proved<P: Panel + Drop>(panel: P)
    ensures { Worked P.Panel.rules }
{
    drop(panel);
}

#[test]
fn worked_cases(rt: HostRuntime) -> Result<(), Fail> {
    let heap = rt.alloc();
    proved(BenchPanel::new(Vec::new(heap)));
    assert_eq!(rt; compared(heap, 0x1f, &[0x37, 0x20])?.0, true);
    assert_eq!(rt; compared(heap, 0x20, &[0x37, 0x20])?.0, false);
    assert_eq!(rt; compared(heap, 0x21, &[0x27, 0x20])?, (true, true));
    assert_eq!(rt; compared(heap, 0x20, &[0x27, 0x20])?, (false, false));
    assert_eq!(rt; jumped(heap, 0x100, &[0xe0])?, 0xe1);
    assert_eq!(rt; jumped(heap, 0x100, &[0xdf])?, 0x120);
    assert_eq!(rt; jumped(heap, 0x200, &[0x4f, 0x00])?, 0x102);
    undefined(&rt, heap, 0x60, 0x48)?;
    undefined(&rt, heap, 0x64, 0x04)?;
    undefined(&rt, heap, 0x74, 0x80)?;
    overlaid(&rt, heap)?;
    entered(&rt, heap)
}

#[test]
fn an_undefined_code_prints(rt: HostRuntime) -> Result<(), Fail> {
    let code = UndefinedCode {
        address: 0x1a0,
        first: 0x60,
        second: 0x48,
    };
    let text = format!(in rt.alloc(); "{code}")?;
    assert_eq!(rt; text.as_str(), "the code 60H 48H at 1A0H is undefined");
    Ok(())
}
