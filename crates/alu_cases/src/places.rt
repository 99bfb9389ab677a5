// Shifts and rotates: a value and the PSW before, the value and the PSW after.
use alu::{Shift, Width, shift_bits, shift_byte, shift_byte_and_skip};
use registers::flags::Flags;
use std::fmt::Debug;
use std::process::Abort;

fn hold<V: Copy + PartialEq + Debug, F: Fn(Shift, V, &mut Flags) -> V>(
    rt: &impl Abort,
    moves: F,
    cases: &[(Shift, V, u8, V, u8)],
)
    requires { F.IsAlwaysCallable moves }
{
    for (shift, value, before, moved, after) in cases {
        let mut flags = Flags::from(*before);
        assert_eq!(rt; moves(*shift, *value, &mut flags), *moved);
        assert_eq!(rt; u8::from(flags), *after);
    }
}

#[test]
fn bytes(rt: HostRuntime) {
    hold(
        &rt,
        |shift, byte, flags| shift_byte(shift, byte, flags),
        &[
            (Shift::Right, 0x01, 0x00, 0x00, 0x01),
            (Shift::Right, 0x82, 0x01, 0x41, 0x00),
            (Shift::Left, 0x80, 0x7c, 0x00, 0x7d),
            (Shift::Left, 0x41, 0x01, 0x82, 0x00),
            (Shift::RotateRight, 0x01, 0x00, 0x00, 0x01),
            (Shift::RotateRight, 0x02, 0x01, 0x81, 0x00),
            (Shift::RotateLeft, 0x80, 0x00, 0x00, 0x01),
            (Shift::RotateLeft, 0x7f, 0x01, 0xff, 0x00),
        ],
    );
}

#[test]
fn skipping(rt: HostRuntime) {
    hold(
        &rt,
        |shift, byte, flags| shift_byte_and_skip(shift, byte, flags),
        &[
            (Shift::Right, 0x01, 0x00, 0x00, 0x21),
            (Shift::Right, 0x02, 0x21, 0x01, 0x00),
            (Shift::Left, 0x81, 0x40, 0x02, 0x61),
            (Shift::Left, 0x40, 0x00, 0x80, 0x00),
        ],
    );
}

#[test]
fn words(rt: HostRuntime) {
    hold(
        &rt,
        |shift, word, flags| shift_bits(shift, Width::Word, word, flags),
        &[
            (Shift::Right, 0x0001, 0x00, 0x0000, 0x01),
            (Shift::Right, 0x8100, 0x01, 0x4080, 0x00),
            (Shift::Left, 0x8000, 0x7c, 0x0000, 0x7d),
            (Shift::Left, 0x0080, 0x01, 0x0100, 0x00),
            (Shift::RotateRight, 0x0001, 0x01, 0x8000, 0x01),
            (Shift::RotateRight, 0x0100, 0x00, 0x0080, 0x00),
            (Shift::RotateLeft, 0x8000, 0x01, 0x0001, 0x01),
            (Shift::RotateLeft, 0x0080, 0x00, 0x0100, 0x00),
        ],
    );
}

#[test]
fn low_bits(rt: HostRuntime) {
    let mut flags = Flags::from(0);
    assert_eq!(rt;
        shift_bits(Shift::Right, Width::Byte, 0x0102, &mut flags),
        0x01
    );
    assert_eq!(rt;
        shift_bits(Shift::Left, Width::Byte, 0xff01, &mut flags),
        0x02
    );
    assert_eq!(rt; u8::from(flags), 0x00);
}
