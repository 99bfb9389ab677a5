// A record by its values, and a record found in a session.

/// One record. A page's 256 bytes are that part of the session.
#[derive(Clone, Copy, PartialEq, Eq, Debug)]
pub enum Record<'a> {
    Cell { address: u16, byte: u8 },
    Page { page: u8, bytes: &'a [u8] },
    Fix { below: u16 },
    Set { register: u8, value: u16 },
    Grant { states: u32 },
    Signal { line: u8 },
    Reset,
    End,
}

/// A record with its place in the session, which is no part of the record.
#[derive(Clone, Copy, PartialEq, Eq, Debug)]
pub struct Found<'a> {
    pub value: Record<'a>,
    /// The offset of the body.
    pub body: usize,
    /// The offset of a page's 256 bytes.
    pub page: Option<usize>,
    /// How many bytes the record has, its kind among them.
    pub length: usize,
}
