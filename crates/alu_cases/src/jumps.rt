// The offsets of relative jumps.
use alu::extend;

#[test]
fn six_bits(rt: HostRuntime) {
    assert_eq!(rt; extend::<6>(0xc0), 0);
    assert_eq!(rt; extend::<6>(0xdf), 31);
    assert_eq!(rt; extend::<6>(0xe0), -32);
    assert_eq!(rt; extend::<6>(0xff), -1);
}

#[test]
fn nine_bits(rt: HostRuntime) {
    assert_eq!(rt; extend::<9>(0x4e00), 0);
    assert_eq!(rt; extend::<9>(0x4eff), 255);
    assert_eq!(rt; extend::<9>(0x4f00), -256);
    assert_eq!(rt; extend::<9>(0x4fff), -1);
}

#[test]
fn targets(rt: HostRuntime) {
    assert_eq!(rt; 0x0101_u16.wrapping_add_signed(extend::<6>(0xdf)), 0x0120);
    assert_eq!(rt; 0x0001_u16.wrapping_add_signed(extend::<6>(0xe0)), 0xffe1);
    assert_eq!(rt; 0xffff_u16.wrapping_add_signed(extend::<9>(0x4eff)), 0x00fe);
    assert_eq!(rt; 0x0002_u16.wrapping_add_signed(extend::<9>(0x4f00)), 0xff02);
}
