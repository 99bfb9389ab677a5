// Rows of an operation on two values: the operands and the PSW before, the value and the PSW after.
use alu::Operation;
use registers::flags::Flags;
use std::fmt::Debug;
use std::process::Abort;

pub(crate) fn hold<V: Copy + PartialEq + Debug, F: Fn(Operation, V, V, &mut Flags) -> V>(
    rt: &impl Abort,
    operate: F,
    cases: &[(Operation, V, V, u8, V, u8)],
)
    requires { F.IsAlwaysCallable operate }
{
    for (operation, a, b, before, value, after) in cases {
        let mut flags = Flags::from(*before);
        assert_eq!(rt; operate(*operation, *a, *b, &mut flags), *value);
        assert_eq!(rt; u8::from(flags), *after);
    }
}
