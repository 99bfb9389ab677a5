// A bench core's registers, set and read by number.
use registers::bench::BenchCore;
use registers::fault::RegisterFault;
use std::test::Fail;

#[test]
fn every_register_takes_its_largest_value(rt: HostRuntime) -> Result<(), Fail> {
    let mut core = BenchCore::new();
    for register in 0..21 {
        assert_eq!(rt; core.get(register), Ok(0));
        let largest = match register {
            0..16 => 255,
            20 => 0x7d,
            _ => 65535,
        };
        assert_eq!(rt; core.set(register, largest), Ok(()));
        assert_eq!(rt;
            core.set(register, largest + 1),
            Err(RegisterFault::ValueOutOfRange)
        );
        assert_eq!(rt; core.get(register)?, largest as u16);
    }
    Ok(())
}

#[test]
fn refusals_come_in_order(rt: HostRuntime) {
    let mut core = BenchCore::new();
    assert_eq!(rt; core.set(21, 65536), Err(RegisterFault::NoSuchRegister));
    assert_eq!(rt; core.set(4294967295, 0), Err(RegisterFault::NoSuchRegister));
    assert_eq!(rt; core.get(21), Err(RegisterFault::NoSuchRegister));
    assert_eq!(rt; core.set(20, 0x02), Err(RegisterFault::ValueOutOfRange));
    assert_eq!(rt; core.set(20, 0x80), Err(RegisterFault::ValueOutOfRange));
    assert_eq!(rt; core.set(20, 0x100), Err(RegisterFault::ValueOutOfRange));
    assert_eq!(rt; core.set(18, 65536), Err(RegisterFault::ValueOutOfRange));
    assert_eq!(rt; core.get(20), Ok(0));
    assert_eq!(rt; RegisterFault::NoSuchRegister.number(), 1);
    assert_eq!(rt; RegisterFault::ValueOutOfRange.number(), 2);
}

#[test]
fn a_core_leaves_the_bench_masked_and_disabled(rt: HostRuntime) {
    let mut core = BenchCore::new();
    assert_eq!(rt; core.set(20, 0x41), Ok(()));
    let core = core.into_core();
    assert_eq!(rt; (core.mkl, core.mkh), (0xff, 0xff));
    assert!(rt; !core.interrupts && !core.halted && !core.after_ei);
    assert!(rt;
        core.registers.flags.zero && core.registers.flags.carry && !core.registers.flags.half
    );
}
