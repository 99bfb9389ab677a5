// What refusals print, and the conversions of flags, names and kinds.
use record::fault::RecordFault;
use record::kind::Kind;
use registers::bank::ByteRegister;
use registers::fault::RegisterFault;
use registers::file::RegisterName;
use registers::flags::Flags;
use session::fault::{Place, SessionFault};
use std::alloc::Global;
use std::fmt::Display;
use std::process::Abort;
use std::test::Fail;

fn prints<T: Display>(rt: &impl Abort, heap: Global, value: &T, text: &str) -> Result<(), Fail> {
    assert_eq!(rt; format!(in heap; "{value}")?.as_str(), text);
    Ok(())
}

#[test]
fn refusals_print_their_text(rt: HostRuntime) -> Result<(), Fail> {
    let heap = rt.alloc();
    let place = Place {
        number: 1,
        offset: 3,
    };
    prints(
        &rt,
        heap,
        &RegisterFault::NoSuchRegister,
        "no register has this number",
    )?;
    prints(&rt, heap, &RecordFault::CutShort, "the record is cut short")?;
    prints(
        &rt,
        heap,
        &SessionFault::Broken(RecordFault::UnknownKind, place),
        "record 1 at offset 3: no record has this kind",
    )?;
    prints(
        &rt,
        heap,
        &SessionFault::Register(RegisterFault::ValueOutOfRange, place),
        "record 1 at offset 3: the register does not take this value",
    )?;
    prints(
        &rt,
        heap,
        &SessionFault::SessionLong,
        "the session is too long",
    )
}

#[test]
fn a_fault_tells_its_record_or_none(rt: HostRuntime) {
    let place = Place {
        number: 1,
        offset: 3,
    };
    assert_eq!(rt; SessionFault::OutOfPlace(place).record(), Some(place));
    assert_eq!(rt; SessionFault::OutOfPlace(place).place(), place);
    assert_eq!(rt; SessionFault::ListingShort.record(), None);
    assert_eq!(rt; SessionFault::ListingShort.place(), Place::default());
}

#[test]
fn flags_names_and_kinds_convert(rt: HostRuntime) {
    assert_eq!(rt; u8::from(Flags::from(0xff)), 0x7d);
    assert_eq!(rt; Flags::try_from(0x82), Err(RegisterFault::ValueOutOfRange));
    assert_eq!(rt;
        RegisterName::try_from(21),
        Err(RegisterFault::NoSuchRegister)
    );
    assert_eq!(rt;
        RegisterName::try_from(15),
        Ok(RegisterName::Alternate(ByteRegister::L))
    );
    assert_eq!(rt; ByteRegister::of_code(0xfe), ByteRegister::H);
    assert_eq!(rt; Kind::try_from(8), Ok(Kind::End));
    assert_eq!(rt; Kind::try_from(9), Err(RecordFault::UnknownKind));
    assert_eq!(rt; u8::from(Kind::Grant), 5);
}
