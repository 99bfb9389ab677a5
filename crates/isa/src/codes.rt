// The operands by their codes, and their codes.
ghost use Rattle.std.specs.Prelude.{◌≡◌, ◌<◌, ℕ};

mod byte_register;
mod flag;
mod line;
mod operation;
mod r1;
mod r2;
mod rp;
mod rp1;
mod rp2;
mod rp3;
mod rpa2;
mod rpa3;

// What an opcode names by a few of its bits. Each impl is the table of its own type: their rows name different things.
pub(crate) trait Operand {
    // What its codes are below.
    ghost limit: { ℕ };

    ghost at: { ℕ → Self };

    ghost code: { Self → ℕ };

    // The one that the low bits name; bits that name none, for which no caller asks, are read as the last.
    fn at(bits: u8) -> Self
        ensures { result ≡ at bits };

    fn code(self) -> u8
        ensures value { result ≡ code self }
        ensures bound { result < limit };

    // A code names what it is the code of.
    ghost again: { (x : Self) → at (code x) ≡ x };

    ghost low: { (x : Self) → code x < limit };
}
