// Which special registers an instruction can name, by their codes.
ghost use Rattle.std.specs.Prelude.{◌≡◌};
ghost use Rattle.isa.specs.Special.{readable as can_read, writable as can_write, both_ways};

// sr1: whether a special register can be read into A.
pub(crate) fn readable(code: u8) -> bool
    ensures { result ≡ can_read code }
{
    matches!(code, 0x00..=0x03 | 0x05..=0x09 | 0x0B | 0x0D | 0x19 | 0x20..=0x23)
}

// sr: whether it can be written from A.
pub(crate) fn writable(code: u8) -> bool
    ensures { result ≡ can_write code }
{
    matches!(code, 0x00..=0x03 | 0x05..=0x0D | 0x10..=0x14 | 0x17..=0x18 | 0x1A..=0x1B | 0x28)
}

// sr2: whether it can be both, so that it takes the operations with a byte.
pub(crate) fn operable(code: u8) -> bool
    ensures { result ≡ both_ways code }
{
    matches!(code, 0x00..=0x03 | 0x05..=0x09 | 0x0B | 0x0D)
}
