// Both makes of board at the edges of their memory.
use board::Board;
use board::flat::FlatBoard;
use board::mask_rom::MaskRomBoard;
use std::alloc::Global;
use std::process::Abort;
use std::test::Fail;

/// A flat board over so many bytes 11H, fixed below F, with 22H written to an address: what is read there, and the byte of the memory given back.
fn written(
    rt: &impl Abort,
    heap: Global,
    length: usize,
    fixed_below: u32,
    address: u16,
) -> Result<(u8, Option<u8>), Fail> {
    let mut board = FlatBoard::new(vec![in heap; 0x11; length]?, fixed_below);
    board.write(address, 0x22);
    let read = board.read(address);
    let memory = board.into_memory();
    assert_eq!(rt; memory.len(), length);
    Ok((read, memory.get(usize::from(address)).copied()))
}

#[test]
fn a_flat_board_of_any_length(rt: HostRuntime) -> Result<(), Fail> {
    let heap = rt.alloc();
    assert_eq!(rt; written(&rt, heap, 0, 0, 0)?, (0xff, None));
    assert_eq!(rt; written(&rt, heap, 1, 0, 0)?, (0x22, Some(0x22)));
    assert_eq!(rt; written(&rt, heap, 1, 0, 1)?, (0xff, None));
    assert_eq!(rt; written(&rt, heap, 65535, 0, 65534)?, (0x22, Some(0x22)));
    assert_eq!(rt; written(&rt, heap, 65535, 0, 65535)?, (0xff, None));
    assert_eq!(rt; written(&rt, heap, 65536, 0, 65535)?, (0x22, Some(0x22)));
    assert_eq!(rt; written(&rt, heap, 65540, 0, 65535)?, (0x22, Some(0x22)));
    Ok(())
}

#[test]
fn a_flat_board_is_fixed_below_its_number(rt: HostRuntime) -> Result<(), Fail> {
    let heap = rt.alloc();
    assert_eq!(rt; written(&rt, heap, 16, 8, 7)?, (0x11, Some(0x11)));
    assert_eq!(rt; written(&rt, heap, 16, 8, 8)?, (0x22, Some(0x22)));
    assert_eq!(rt;
        written(&rt, heap, 65536, 65536, 65535)?,
        (0x11, Some(0x11))
    );
    assert_eq!(rt;
        written(&rt, heap, 65536, 65535, 65535)?,
        (0x22, Some(0x22))
    );
    assert_eq!(rt;
        written(&rt, heap, 65536, 4294967295, 0)?,
        (0x11, Some(0x11))
    );
    Ok(())
}

#[test]
fn bytes_past_the_last_address_stay(rt: HostRuntime) -> Result<(), Fail> {
    let mut memory = vec![in rt.alloc(); 0; 65537]?;
    assert!(rt; memory.len() == 65537);
    memory[65536] = 0x33;
    let mut board = FlatBoard::new(memory, 0);
    board.write(0, 1);
    board.write(65535, 2);
    let memory = board.into_memory();
    assert_eq!(rt; memory.get(0).copied(), Some(1));
    assert_eq!(rt; memory.get(65535).copied(), Some(2));
    assert_eq!(rt; memory.get(65536).copied(), Some(0x33));
    Ok(())
}

/// A mask-ROM board with an image of so many bytes 44H, with 22H written to an address: what is read there before and after.
fn in_rom(rt: &impl Abort, heap: Global, length: usize, address: u16) -> Result<(u8, u8), Fail> {
    let mut board = MaskRomBoard::new(vec![in heap; 0x44; length]?);
    let before = board.read(address);
    board.write(address, 0x22);
    let after = board.read(address);
    assert_eq!(rt; board.into_rom().len(), length);
    Ok((before, after))
}

#[test]
fn a_mask_rom_board_of_any_image(rt: HostRuntime) -> Result<(), Fail> {
    let heap = rt.alloc();
    assert_eq!(rt; in_rom(&rt, heap, 0, 0)?, (0xff, 0xff));
    assert_eq!(rt; in_rom(&rt, heap, 1, 0)?, (0x44, 0x44));
    assert_eq!(rt; in_rom(&rt, heap, 4096, 0x0fff)?, (0x44, 0x44));
    assert_eq!(rt; in_rom(&rt, heap, 4097, 0x1000)?, (0xff, 0xff));
    assert_eq!(rt; in_rom(&rt, heap, 65536, 0xfeff)?, (0xff, 0xff));
    assert_eq!(rt; in_rom(&rt, heap, 65536, 0xff00)?, (0x00, 0x22));
    assert_eq!(rt; in_rom(&rt, heap, 0, 0xffff)?, (0x00, 0x22));
    Ok(())
}
