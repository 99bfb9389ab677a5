// Reads records from a session.
ghost use Rattle.std.specs.Prelude.{◌≡◌, ◌+◌, ◌^◌, ◌<◌, ◌≤◌, length, drop, IfOk};
ghost use Rattle.record.specs.Law.{Rewrites};
ghost use Rattle.record.specs.Wire.{reading, body_of, told, answered, finding, found, said, page_at, wire};
ghost use Rattle.record.specs.declared.kind.Kind.TheVariants.{Cell as CELL, Page as PAGE, Fix as FIX, Set as SET, Grant as GRANT, Signal as SIGNAL};

use crate::fault::RecordFault;
use crate::kind::Kind;
use crate::types::{Found, Record};

impl<'a> Record<'a> {
    /// The record that stands at an offset of a session. Inline, since a caller that takes the record apart then tells its kind apart once.
    #[inline]
    pub fn read(session: &'a [u8], offset: usize) -> Result<Found<'a>, RecordFault>
        ensures answer { found result ≡ finding session.now offset }
        ensures inside { IfOk result (λ f. (0 < f.length) × (offset + f.length ≤ length session.now)) }
        ensures rewrites { IfOk result (λ f. Rewrites (drop offset session.now) (said f.value) f.length) }
    {
        let rest = session.get(offset..).ok_or(RecordFault::CutShort)?;
        let (value, length) = read_first(rest)?;
        let page = page_at(&value, offset);
        Ok(Found {
            value,
            body: offset + 1,
            page,
            length,
        })
    }
}

/// Where a page's 256 bytes stand, if the record at an offset is a page.
fn page_at(value: &Record<'_>, offset: usize) -> Option<usize>
    requires { offset + length (wire (said value.now)) < 2 ^ 64 }
    ensures { result ≡ page_at offset (said value.now) }
{
    match value {
        Record::Page { .. } => Some(offset + 2),
        _ => None,
    }
}

/// The record at the start of a session's rest, and its whole length.
fn read_first(rest: &[u8]) -> Result<(Record<'_>, usize), RecordFault>
    ensures { answered result ≡ reading rest.now }
{
    let [kind, body @ ..] = rest else {
        return Err(RecordFault::CutShort);
    };
    let kind = Kind::try_from(*kind)?;
    // Asked before the body is read: behind it, the kind would be told apart once more for each record.
    let length = 1 + kind.body_length();
    Ok((read_body(kind, body)?, length))
}

fn read_body(kind: Kind, body: &[u8]) -> Result<Record<'_>, RecordFault>
    ensures { told result ≡ body_of kind body.now }
{
    match kind {
        Kind::Cell => read_cell(body),
        Kind::Page => read_page(body),
        Kind::Fix => read_fix(body),
        Kind::Set => read_set(body),
        Kind::Grant => read_grant(body),
        Kind::Signal => read_signal(body),
        Kind::Reset => Ok(Record::Reset),
        Kind::End => Ok(Record::End),
    }
}

fn read_cell(body: &[u8]) -> Result<Record<'_>, RecordFault>
    ensures { told result ≡ body_of CELL body.now }
{
    let [low, high, byte, ..] = *body else {
        return Err(RecordFault::CutShort);
    };
    let address = u16::from_le_bytes([low, high]);
    Ok(Record::Cell { address, byte })
}

fn read_page(body: &[u8]) -> Result<Record<'_>, RecordFault>
    ensures { told result ≡ body_of PAGE body.now }
{
    let [page, bytes @ ..] = body else {
        return Err(RecordFault::CutShort);
    };
    let bytes = bytes.get(..256).ok_or(RecordFault::CutShort)?;
    Ok(Record::Page { page: *page, bytes })
}

fn read_fix(body: &[u8]) -> Result<Record<'_>, RecordFault>
    ensures { told result ≡ body_of FIX body.now }
{
    let [low, high, ..] = *body else {
        return Err(RecordFault::CutShort);
    };
    let below = u16::from_le_bytes([low, high]);
    Ok(Record::Fix { below })
}

fn read_set(body: &[u8]) -> Result<Record<'_>, RecordFault>
    ensures { told result ≡ body_of SET body.now }
{
    let [register, low, high, ..] = *body else {
        return Err(RecordFault::CutShort);
    };
    let value = u16::from_le_bytes([low, high]);
    Ok(Record::Set { register, value })
}

fn read_grant(body: &[u8]) -> Result<Record<'_>, RecordFault>
    ensures { told result ≡ body_of GRANT body.now }
{
    let [a, b, c, d, ..] = *body else {
        return Err(RecordFault::CutShort);
    };
    let states = u32::from_le_bytes([a, b, c, d]);
    Ok(Record::Grant { states })
}

fn read_signal(body: &[u8]) -> Result<Record<'_>, RecordFault>
    ensures { told result ≡ body_of SIGNAL body.now }
{
    let [line, ..] = *body else {
        return Err(RecordFault::CutShort);
    };
    Ok(Record::Signal { line })
}
