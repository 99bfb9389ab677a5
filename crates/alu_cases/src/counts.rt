// Counting up and down by one, and negation.
use alu::{Count, count_byte, negate};
use registers::flags::Flags;
use std::process::Abort;

fn hold(rt: &impl Abort, count: Count, cases: &[(u8, u8, u8, u8)]) {
    for (byte, before, value, after) in cases {
        let mut flags = Flags::from(*before);
        assert_eq!(rt; count_byte(count, *byte, &mut flags), *value);
        assert_eq!(rt; u8::from(flags), *after);
    }
}

#[test]
fn increments(rt: HostRuntime) {
    hold(
        &rt,
        Count::Up,
        &[
            (0x00, 0x61, 0x01, 0x00),
            (0x0f, 0x00, 0x10, 0x10),
            (0x7f, 0x0c, 0x80, 0x1c),
            (0xff, 0x00, 0x00, 0x71),
        ],
    );
}

#[test]
fn decrements(rt: HostRuntime) {
    hold(
        &rt,
        Count::Down,
        &[
            (0x02, 0x61, 0x01, 0x00),
            (0x01, 0x00, 0x00, 0x40),
            (0x10, 0x0c, 0x0f, 0x1c),
            (0x00, 0x00, 0xff, 0x31),
        ],
    );
}

#[test]
fn negations(rt: HostRuntime) {
    assert_eq!(rt; negate(0x00), 0x00);
    assert_eq!(rt; negate(0x01), 0xff);
    assert_eq!(rt; negate(0x80), 0x80);
    assert_eq!(rt; negate(0xff), 0x01);
}
