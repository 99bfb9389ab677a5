// Decimal adjust alone and after additions, and the rotates of digits.
use alu::{Operation, decimal_adjust, operate_byte, rotate_digits_left, rotate_digits_right};
use registers::flags::Flags;
use std::process::Abort;

fn adjust(rt: &impl Abort, cases: &[(u8, u8, u8, u8)]) {
    for (a, before, value, after) in cases {
        let mut flags = Flags::from(*before);
        assert_eq!(rt; decimal_adjust(*a, &mut flags), *value);
        assert_eq!(rt; u8::from(flags), *after);
    }
}

// The decimal sum of two packed bytes and CY, and whether CY is set then.
fn add(rt: &impl Abort, cases: &[(u8, u8, u8, u8, bool)]) {
    for (a, b, carry, sum, carries) in cases {
        let mut flags = Flags::from(*carry);
        let binary = operate_byte(Operation::AddWithCarry, *a, *b, &mut flags);
        assert_eq!(rt; decimal_adjust(binary, &mut flags), *sum);
        assert_eq!(rt; flags.carry, *carries);
    }
}

#[test]
fn rows(rt: HostRuntime) {
    adjust(
        &rt,
        &[
            (0x99, 0x00, 0x99, 0x00),
            (0x00, 0x2c, 0x00, 0x6c),
            (0xa0, 0x00, 0x00, 0x41),
            (0x00, 0x01, 0x60, 0x01),
            (0x8a, 0x00, 0x90, 0x10),
            (0x9a, 0x00, 0x00, 0x51),
            (0x0a, 0x01, 0x70, 0x11),
            (0x92, 0x10, 0x98, 0x00),
            (0xa2, 0x10, 0x08, 0x01),
            (0x12, 0x11, 0x78, 0x01),
            (0x9f, 0x10, 0xa5, 0x10),
            (0x0f, 0x11, 0x75, 0x11),
        ],
    );
}

#[test]
fn additions(rt: HostRuntime) {
    add(
        &rt,
        &[
            (0x00, 0x00, 0, 0x00, false),
            (0x15, 0x27, 0, 0x42, false),
            (0x09, 0x08, 1, 0x18, false),
            (0x49, 0x50, 1, 0x00, true),
            (0x50, 0x50, 0, 0x00, true),
            (0x95, 0x05, 0, 0x00, true),
            (0x99, 0x99, 0, 0x98, true),
            (0x99, 0x99, 1, 0x99, true),
        ],
    );
}

#[test]
fn rotates_of_digits(rt: HostRuntime) {
    let mut a = 0x12;
    assert_eq!(rt; rotate_digits_left(&mut a, 0x34), 0x42);
    assert_eq!(rt; a, 0x13);
    assert_eq!(rt; rotate_digits_right(&mut a, 0x42), 0x34);
    assert_eq!(rt; a, 0x12);
    assert_eq!(rt; rotate_digits_right(&mut a, 0x34), 0x23);
    assert_eq!(rt; a, 0x14);
}
