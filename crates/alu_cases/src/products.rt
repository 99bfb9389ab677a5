// Multiplication and division.
use alu::{divide, multiply};
use std::process::Abort;

fn hold(rt: &impl Abort, cases: &[(u16, u8, u16, u8)]) {
    for (dividend, divisor, quotient, remainder) in cases {
        let mut register = *divisor;
        assert_eq!(rt; divide(*dividend, &mut register), *quotient);
        assert_eq!(rt; register, *remainder);
    }
}

#[test]
fn products(rt: HostRuntime) {
    assert_eq!(rt; multiply(0, 5), 0);
    assert_eq!(rt; multiply(12, 13), 156);
    assert_eq!(rt; multiply(0xff, 0xff), 0xfe01);
}

#[test]
fn quotients(rt: HostRuntime) {
    hold(
        &rt,
        &[
            (1000, 7, 142, 6),
            (6, 7, 0, 6),
            (0xffff, 1, 0xffff, 0),
            (0xffff, 0xff, 0x0101, 0),
            (0xfffe, 0xff, 0x0100, 0xfe),
            (0x1234, 0, 0xffff, 0),
        ],
    );
}
