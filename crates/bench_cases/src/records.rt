// Records written, read, refused.
use record::fault::RecordFault;
use record::types::Record;
use std::test::Fail;

/// Writes a record into a buffer of so many bytes AAH: its length, and the buffer.
fn bytes_of(record: Record<'static>, room: usize) -> Result<[u8; 8], RecordFault> {
    let mut buffer = [0xaa; 8];
    let _ = record.write(&mut buffer[0..room.min(8)])?;
    Ok(buffer)
}

#[test]
fn each_kind_has_its_bytes(rt: HostRuntime) -> Result<(), Fail> {
    let cell = Record::Cell {
        address: 0x1234,
        byte: 0x56,
    };
    assert_eq!(rt;
        bytes_of(cell, 8)?,
        [1, 0x34, 0x12, 0x56, 0xaa, 0xaa, 0xaa, 0xaa]
    );
    assert_eq!(rt;
        bytes_of(Record::Fix { below: 0x1000 }, 8)?,
        [3, 0x00, 0x10, 0xaa, 0xaa, 0xaa, 0xaa, 0xaa]
    );
    assert_eq!(rt;
        bytes_of(
            Record::Set {
                register: 19,
                value: 3,
            },
            8,
        )?,
        [4, 19, 3, 0, 0xaa, 0xaa, 0xaa, 0xaa]
    );
    assert_eq!(rt;
        bytes_of(Record::Grant { states: 10 }, 8)?,
        [5, 10, 0, 0, 0, 0xaa, 0xaa, 0xaa]
    );
    assert_eq!(rt;
        bytes_of(Record::Signal { line: 10 }, 8)?,
        [6, 10, 0xaa, 0xaa, 0xaa, 0xaa, 0xaa, 0xaa]
    );
    assert_eq!(rt;
        bytes_of(Record::Reset, 1)?,
        [7, 0xaa, 0xaa, 0xaa, 0xaa, 0xaa, 0xaa, 0xaa]
    );
    assert_eq!(rt;
        bytes_of(Record::End, 1)?,
        [8, 0xaa, 0xaa, 0xaa, 0xaa, 0xaa, 0xaa, 0xaa]
    );
    Ok(())
}

/// Writes page 1 into a buffer; its length.
fn page_written(bytes: &[u8], buffer: &mut [u8]) -> Result<usize, RecordFault> {
    let page = Record::Page { page: 1, bytes };
    page.write(buffer)
}

#[test]
fn a_writer_without_room_refuses(rt: HostRuntime) {
    assert_eq!(rt; bytes_of(Record::End, 0), Err(RecordFault::NoRoom));
    assert_eq!(rt;
        bytes_of(Record::Grant { states: 4294967295 }, 4),
        Err(RecordFault::NoRoom)
    );
    let mut buffer = [0xaa; 300];
    let bytes = [0x55; 257];
    assert_eq!(rt; page_written(&bytes, &mut buffer), Err(RecordFault::NoRoom));
    assert_eq!(rt;
        page_written(&bytes[0..255], &mut buffer),
        Err(RecordFault::NoRoom)
    );
    assert_eq!(rt; (buffer[0], buffer[299]), (0xaa, 0xaa));
    assert_eq!(rt; RecordFault::NoRoom.number(), 13);
}

#[test]
fn a_page_has_its_bytes(rt: HostRuntime) {
    let mut short = [0xaa; 257];
    assert_eq!(rt;
        page_written(&[0x55; 256], &mut short),
        Err(RecordFault::NoRoom)
    );
    assert_eq!(rt; (short[0], short[256]), (0xaa, 0xaa));
    let mut buffer = [0xaa; 300];
    assert_eq!(rt; page_written(&[0x55; 256], &mut buffer), Ok(258));
    assert_eq!(rt;
        (buffer[0], buffer[1], buffer[2], buffer[257], buffer[258]),
        (2, 1, 0x55, 0x55, 0xaa)
    );
}

/// A page behind an END: what stands where.
#[test]
fn a_page_is_that_part_of_the_session(rt: HostRuntime) -> Result<(), Fail> {
    let mut session = [0; 259];
    session[0] = 8;
    session[1] = 2;
    session[2] = 0xff;
    session[258] = 0x77;
    let found = Record::read(&session, 1)?;
    assert_eq!(rt; (found.body, found.page, found.length), (2, Some(3), 258));
    let Record::Page { page, bytes } = found.value else {
        return Err(Fail::new("no page"));
    };
    assert_eq!(rt; page, 0xff);
    assert_eq!(rt; bytes.len(), 256);
    assert_eq!(rt; bytes.last().copied(), Some(0x77));
    Ok(())
}

/// Why a record is not read, by its number; 0 if it is, so that a case is two numbers.
fn fault_at(session: &[u8], offset: usize) -> u8 {
    Record::read(session, offset)
        .err()
        .map_or(0, |fault| fault.number())
}

#[test]
fn a_reader_refuses(rt: HostRuntime) {
    assert_eq!(rt; fault_at(&[], 0), 9);
    assert_eq!(rt; fault_at(&[8], 0), 0);
    assert_eq!(rt; fault_at(&[8], 1), 9);
    assert_eq!(rt; fault_at(&[8], 2), 9);
    assert_eq!(rt; fault_at(&[8], 18446744073709551615), 9);
    assert_eq!(rt; fault_at(&[0], 0), 8);
    assert_eq!(rt; fault_at(&[9], 0), 8);
    assert_eq!(rt; fault_at(&[1, 0, 0], 0), 9);
    assert_eq!(rt; fault_at(&[1, 0, 0, 0], 0), 0);
    assert_eq!(rt; fault_at(&[2; 257], 0), 9);
    assert_eq!(rt; fault_at(&[2; 258], 0), 0);
    assert_eq!(rt; fault_at(&[5, 0, 0, 0], 0), 9);
    assert_eq!(rt; fault_at(&[6], 0), 9);
}
