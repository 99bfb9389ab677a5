// Writes records into a buffer.
ghost use Rattle.std.specs.Prelude.{◌≡◌};
ghost use Rattle.record.specs.Law.{Fits, reread};
ghost use Rattle.record.specs.Wire.{said, page, reading, put_answer, put_over, write_answer, write_over};

use crate::fault::RecordFault;
use crate::kind::Kind;
use crate::types::Record;

impl Record<'_> {
    /// Puts the record at the start of a buffer, leaves the bytes behind it and answers its length.
    pub fn write(&self, buffer: &mut [u8]) -> Result<usize, RecordFault>
        ensures answer { result ≡ write_answer (said self.now) buffer.old }
        ensures after { buffer.new ≡ write_over (said self.now) buffer.old }
        ensures rereads { reading buffer.new ≡ reread result (said self.now) buffer.old }
    {
        write_at_start(self, buffer)
    }
}

fn write_at_start(record: &Record<'_>, buffer: &mut [u8]) -> Result<usize, RecordFault>
    ensures answer { result ≡ write_answer (said «record».now) buffer.old }
    ensures fits { Fits (said «record».now) }
    ensures after { buffer.new ≡ write_over (said «record».now) buffer.old }
{
    match record {
        Record::Cell { address, byte } => {
            let [low, high] = address.to_le_bytes();
            put(buffer, &[Kind::Cell.into(), low, high, *byte])
        }
        Record::Page { page, bytes } => put_page(buffer, *page, bytes),
        Record::Fix { below } => {
            let [low, high] = below.to_le_bytes();
            put(buffer, &[Kind::Fix.into(), low, high])
        }
        Record::Set { register, value } => {
            let [low, high] = value.to_le_bytes();
            put(buffer, &[Kind::Set.into(), *register, low, high])
        }
        Record::Grant { states } => {
            let [a, b, c, d] = states.to_le_bytes();
            put(buffer, &[Kind::Grant.into(), a, b, c, d])
        }
        Record::Signal { line } => put(buffer, &[Kind::Signal.into(), *line]),
        Record::Reset => put(buffer, &[Kind::Reset.into()]),
        Record::End => put(buffer, &[Kind::End.into()]),
    }
}

/// The two refusals of a page are one test, and the bytes go straight into the buffer, not by way of a joined body.
fn put_page(buffer: &mut [u8], number: u8, bytes: &[u8]) -> Result<usize, RecordFault>
    ensures answer { result ≡ write_answer (page number bytes.now) buffer.old }
    ensures after { buffer.new ≡ write_over (page number bytes.now) buffer.old }
{
    if bytes.len() != 256 || buffer.len() < 258 {
        return Err(RecordFault::NoRoom);
    }
    buffer[0] = Kind::Page.into();
    buffer[1] = number;
    buffer[2..258].copy_from_slice(bytes);
    Ok(258)
}

/// Puts bytes at the start of a buffer that has room for them. A test and no `get_mut`, behind which the refusal and the copy are the same two steps.
fn put(buffer: &mut [u8], bytes: &[u8]) -> Result<usize, RecordFault>
    ensures answer { result ≡ put_answer bytes.now buffer.old }
    ensures after { buffer.new ≡ put_over bytes.now buffer.old }
{
    let n = bytes.len();
    if buffer.len() < n {
        return Err(RecordFault::NoRoom);
    }
    buffer[0..n].copy_from_slice(bytes);
    Ok(n)
}
