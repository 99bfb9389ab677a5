// Writes text into a lent buffer, one piece behind the other.
ghost use Rattle.std.specs.Prelude.{◌≡◌, ◌+◌, ◌<◌, ◌≤◌, ◌++◌, length, decimal};
ghost use Rattle.session.specs.Appends.{Appends, Room};
ghost use Rattle.session.specs.Text.{hex, hex2, hex4};

/// A buffer and the position up to which it is written: the buffer is lent, so that nothing is allocated for a listing.
#[derive(Drop)]
pub(crate) struct Listing<'a> {
    pub(crate) buffer: &'a mut [u8],
    pub(crate) at: usize,
}

impl Listing<'_> {
    /// Text behind what is written. Each line says how much room it needs, since each has a length of its own.
    pub(crate) fn text(&mut self, text: &[u8])
        requires { Room self.old (length text.now) }
        ensures { Appends self.old text.now self.new }
    {
        let end = self.at + text.len();
        self.buffer[self.at..end].copy_from_slice(text);
        self.at = end;
    }

    /// A byte in two hexadecimal digits, behind a label.
    pub(crate) fn byte(&mut self, label: &[u8], byte: u8)
        requires { Room self.old (length label.now + 2) }
        ensures { Appends self.old (label.now ++ hex2 byte) self.new }
    {
        self.text(label);
        self.text(&[digit(byte / 16), digit(byte % 16)]);
    }

    /// A word in four hexadecimal digits, behind a label.
    pub(crate) fn word(&mut self, label: &[u8], word: u16)
        requires { Room self.old (length label.now + 4) }
        ensures { Appends self.old (label.now ++ hex4 word) self.new }
    {
        let [high, low] = word.to_be_bytes();
        self.byte(label, high);
        self.byte(b"", low);
    }

    /// A number in decimal, behind a label.
    pub(crate) fn number(&mut self, label: &[u8], number: u64)
        requires { Room self.old (length label.now + 20) }
        ensures text { Appends self.old (label.now ++ decimal number) self.new }
        ensures digits { length (decimal number) ≤ 20 }
    {
        self.text(label);
        self.decimal(number);
    }

    /// Its digits, written here, since no contract says that a write to a formatter succeeds.
    fn decimal(&mut self, number: u64)
        requires { Room self.old 20 }
        ensures text { Appends self.old (decimal number) self.new }
        ensures digits { length (decimal number) ≤ 20 }
    {
        if number < 10 {
            self.text(&[b'0' + number as u8]);
            return;
        }
        self.decimal(number / 10);
        self.text(&[b'0' + (number % 10) as u8]);
    }
}

/// An upper-case hexadecimal digit.
fn digit(value: u8) -> u8
    requires { value < 16 }
    ensures { result ≡ hex value }
{
    b"0123456789ABCDEF"[usize::from(value)]
}
