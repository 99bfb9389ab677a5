// Numbers, masks and levels of lines, and what an entry clears.
use lines::{Level, Line, Lines, NoSuchLine};
use std::test::Fail;

fn set(first: Line, second: Line) -> Lines {
    let mut lines = Lines::empty();
    lines.insert(first);
    lines.insert(second);
    lines
}

#[test]
fn numbers(rt: HostRuntime) {
    assert_eq!(rt; Line::Nmi.number(), 0);
    assert_eq!(rt; Line::Fein.number(), 7);
    assert_eq!(rt; Line::Fst.number(), 10);
    assert_eq!(rt; Line::try_from(8), Ok(Line::Fad));
    assert_eq!(rt; Line::try_from(11), Err(NoSuchLine(11)));
}

#[test]
fn a_number_without_a_line_prints(rt: HostRuntime) -> Result<(), Fail> {
    let text = format!(in rt.alloc(); "{}", NoSuchLine(11))?;
    assert_eq!(rt; text.as_str(), "no line has number 11");
    Ok(())
}

#[test]
fn levels(rt: HostRuntime) {
    assert_eq!(rt; Lines::empty().level(), None);
    assert_eq!(rt;
        set(Line::Nmi, Line::Fst).level().map(Level::number),
        Some(0)
    );
    assert_eq!(rt;
        set(Line::Ft1, Line::F1).level().map(Level::number),
        Some(1)
    );
    assert_eq!(rt;
        set(Line::F2, Line::Fe0).level().map(Level::number),
        Some(2)
    );
    assert_eq!(rt;
        set(Line::Fe1, Line::Fad).level().map(Level::number),
        Some(3)
    );
    assert_eq!(rt;
        set(Line::Fein, Line::Fsr).level().map(Level::number),
        Some(4)
    );
    assert_eq!(rt;
        set(Line::Fsr, Line::Fst).level().map(Level::number),
        Some(5)
    );
}

#[test]
fn masks(rt: HostRuntime) {
    assert_eq!(rt;
        set(Line::Nmi, Line::Ft0)
            .unmasked(0xffff)
            .level()
            .map(Level::number),
        Some(0)
    );
    assert_eq!(rt;
        set(Line::Ft0, Line::Fst)
            .unmasked(0x0002)
            .level()
            .map(Level::number),
        Some(5)
    );
    assert_eq!(rt; set(Line::Ft0, Line::Fst).unmasked(0x0402).level(), None);
}

#[test]
fn levels_by_name(rt: HostRuntime) {
    assert_eq!(rt; Lines::empty().level(), None);
    assert_eq!(rt; set(Line::Nmi, Line::Fst).level(), Some(Level::Nmi));
    assert_eq!(rt; set(Line::Ft1, Line::F1).level(), Some(Level::Timer));
    assert_eq!(rt; set(Line::F2, Line::Fe0).level(), Some(Level::External));
    assert_eq!(rt; set(Line::Fe1, Line::Fad).level(), Some(Level::Counter));
    assert_eq!(rt; set(Line::Fein, Line::Fsr).level(), Some(Level::Analog));
    assert_eq!(rt; set(Line::Fsr, Line::Fst).level(), Some(Level::Serial));
}

#[test]
fn masks_by_name(rt: HostRuntime) {
    assert_eq!(rt;
        set(Line::Nmi, Line::Ft0).unmasked(0xffff).level(),
        Some(Level::Nmi)
    );
    assert_eq!(rt;
        set(Line::Ft0, Line::Fst).unmasked(0x0002).level(),
        Some(Level::Serial)
    );
    assert_eq!(rt; set(Line::Ft0, Line::Fst).unmasked(0x0402).level(), None);
}

#[test]
fn entries(rt: HostRuntime) {
    assert_eq!(rt; Level::Nmi.vector(), 4);
    assert_eq!(rt; Level::Nmi.entered(0xffff), Some(Line::Nmi));
    assert_eq!(rt; Level::Serial.vector(), 40);
    assert_eq!(rt; Level::Serial.entered(0x0200), Some(Line::Fst));
    assert_eq!(rt; Level::Serial.entered(0x0400), Some(Line::Fsr));
    assert_eq!(rt; Level::Serial.entered(0x01ff), None);
}
