// The operations on words, as those on bytes; the half carry is the one past bit 11.
use crate::rows;
use alu::{Operation, Width, operate};
use registers::flags::Flags;
use std::process::Abort;

fn hold(rt: &impl Abort, cases: &[(Operation, u16, u16, u8, u16, u8)]) {
    rows::hold(
        rt,
        |operation, a, b, flags| operate(operation, Width::Word, a, b, flags),
        cases,
    );
}

#[test]
fn bitwise(rt: HostRuntime) {
    hold(
        &rt,
        &[
            (Operation::And, 0xff00, 0x00ff, 0x11, 0x0000, 0x51),
            (Operation::Xor, 0xffff, 0x0ff0, 0x00, 0xf00f, 0x00),
            (Operation::Or, 0x8000, 0x0001, 0x00, 0x8001, 0x00),
            (Operation::On, 0x8000, 0x8000, 0x00, 0x8000, 0x20),
            (Operation::On, 0x8000, 0x7fff, 0x00, 0x0000, 0x40),
            (Operation::Off, 0x8000, 0x7fff, 0x00, 0x0000, 0x60),
            (Operation::Off, 0x8000, 0x8000, 0x00, 0x8000, 0x00),
        ],
    );
}

#[test]
fn sums(rt: HostRuntime) {
    hold(
        &rt,
        &[
            (Operation::Add, 0x000f, 0x0001, 0x00, 0x0010, 0x00),
            (Operation::Add, 0x00ff, 0x0001, 0x00, 0x0100, 0x00),
            (Operation::Add, 0x0fff, 0x0001, 0x00, 0x1000, 0x10),
            (Operation::Add, 0xffff, 0x0001, 0x0c, 0x0000, 0x5d),
            (Operation::AddWithCarry, 0x0ffe, 0x0001, 0x01, 0x1000, 0x10),
            (Operation::AddWithCarry, 0xffff, 0x0000, 0x01, 0x0000, 0x51),
            (
                Operation::AddSkipNoCarry,
                0x7fff,
                0x7fff,
                0x00,
                0xfffe,
                0x30,
            ),
            (
                Operation::AddSkipNoCarry,
                0x8000,
                0x8000,
                0x00,
                0x0000,
                0x41,
            ),
        ],
    );
}

#[test]
fn differences(rt: HostRuntime) {
    hold(
        &rt,
        &[
            (Operation::Sub, 0x0010, 0x0001, 0x00, 0x000f, 0x00),
            (Operation::Sub, 0x1000, 0x0001, 0x00, 0x0fff, 0x10),
            (Operation::Sub, 0x0000, 0x0001, 0x00, 0xffff, 0x11),
            (Operation::SubWithCarry, 0x1000, 0x0000, 0x01, 0x0fff, 0x10),
            (Operation::SubWithCarry, 0x0000, 0xffff, 0x01, 0x0000, 0x51),
            (
                Operation::SubSkipNoBorrow,
                0x1234,
                0x1234,
                0x00,
                0x0000,
                0x60,
            ),
            (
                Operation::SubSkipNoBorrow,
                0x1234,
                0x1235,
                0x00,
                0xffff,
                0x11,
            ),
        ],
    );
}

#[test]
fn comparisons(rt: HostRuntime) {
    hold(
        &rt,
        &[
            (Operation::Greater, 0x1234, 0x1233, 0x00, 0x0000, 0x60),
            (Operation::Greater, 0x1234, 0x1234, 0x00, 0xffff, 0x11),
            (Operation::Less, 0x0fff, 0x1000, 0x00, 0xffff, 0x21),
            (Operation::Less, 0x1000, 0x0fff, 0x00, 0x0001, 0x10),
            (Operation::NotEqual, 0x0100, 0x0000, 0x00, 0x0100, 0x20),
            (Operation::NotEqual, 0xabcd, 0xabcd, 0x00, 0x0000, 0x40),
            (Operation::Equal, 0xabcd, 0xabcd, 0x00, 0x0000, 0x60),
            (Operation::Equal, 0x0100, 0x0000, 0x00, 0x0100, 0x00),
        ],
    );
}

// Of operands past the width the low bits are taken.
#[test]
fn low_bits(rt: HostRuntime) {
    let mut flags = Flags::from(0);
    assert_eq!(rt;
        operate(Operation::Add, Width::Byte, 0x01ff, 0x0201, &mut flags),
        0x00
    );
    assert_eq!(rt; u8::from(flags), 0x51);
    assert_eq!(rt;
        operate(Operation::Or, Width::Byte, 0xff00, 0x0100, &mut flags),
        0x00
    );
    assert_eq!(rt; u8::from(flags), 0x51);
}
