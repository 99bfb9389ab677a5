// The operations by code, and which store.
use alu::{NoSuchOperation, Operation};
use std::process::Abort;
use std::test::Fail;

fn hold(rt: &impl Abort, cases: &[(u8, Operation, bool)]) {
    for (code, operation, stores) in cases {
        assert_eq!(rt; Operation::try_from(*code), Ok(*operation));
        assert_eq!(rt; operation.code(), *code);
        assert_eq!(rt; operation.stores(), *stores);
    }
}

#[test]
fn codes(rt: HostRuntime) {
    hold(
        &rt,
        &[
            (1, Operation::And, true),
            (2, Operation::Xor, true),
            (3, Operation::Or, true),
            (4, Operation::AddSkipNoCarry, true),
            (5, Operation::Greater, false),
            (6, Operation::SubSkipNoBorrow, true),
            (7, Operation::Less, false),
            (8, Operation::Add, true),
            (9, Operation::On, false),
            (10, Operation::AddWithCarry, true),
            (11, Operation::Off, false),
            (12, Operation::Sub, true),
            (13, Operation::NotEqual, false),
            (14, Operation::SubWithCarry, true),
            (15, Operation::Equal, false),
        ],
    );
}

#[test]
fn no_operation(rt: HostRuntime) {
    assert_eq!(rt; Operation::try_from(0), Err(NoSuchOperation(0)));
    assert_eq!(rt; Operation::try_from(16), Err(NoSuchOperation(16)));
    assert_eq!(rt; Operation::try_from(255), Err(NoSuchOperation(255)));
}

#[test]
fn a_code_without_an_operation_prints(rt: HostRuntime) -> Result<(), Fail> {
    let text = format!(in rt.alloc(); "{}", NoSuchOperation(16))?;
    assert_eq!(rt; text.as_str(), "no operation has code 16");
    Ok(())
}
