// The fifteen operations by name and number.
ghost use Rattle.std.specs.Prelude.{◌≡◌, ◌<◌, Some};
ghost use Rattle.alu.specs.Naming.{Decodes, named, operation_code, refusal, storing};
ghost use Rattle.alu.specs.Operations.{skipping};

use std::error::Error;
use std::fmt;

#[derive(Clone, Copy, PartialEq, Eq, Debug)]
pub enum Operation {
    And = 1,
    Xor,
    Or,
    AddSkipNoCarry,
    Greater,
    SubSkipNoBorrow,
    Less,
    Add,
    On,
    AddWithCarry,
    Off,
    Sub,
    NotEqual,
    SubWithCarry,
    Equal,
}

/// A code that is no operation's.
#[derive(Clone, Copy, PartialEq, Eq, Debug)]
pub struct NoSuchOperation(pub u8);

impl TryFrom<u8> for Operation {
    type Error = NoSuchOperation;

    ghost try_from_gives = { Decodes };

    fn try_from(code: u8) -> Result<Self, NoSuchOperation> {
        match code {
            1 => Ok(Operation::And),
            2 => Ok(Operation::Xor),
            3 => Ok(Operation::Or),
            4 => Ok(Operation::AddSkipNoCarry),
            5 => Ok(Operation::Greater),
            6 => Ok(Operation::SubSkipNoBorrow),
            7 => Ok(Operation::Less),
            8 => Ok(Operation::Add),
            9 => Ok(Operation::On),
            10 => Ok(Operation::AddWithCarry),
            11 => Ok(Operation::Off),
            12 => Ok(Operation::Sub),
            13 => Ok(Operation::NotEqual),
            14 => Ok(Operation::SubWithCarry),
            15 => Ok(Operation::Equal),
            _ => Err(NoSuchOperation(code)),
        }
    }
}

impl fmt::Display for NoSuchOperation {
    ghost output = { λ e. Some (refusal e.0) };

    fn fmt<W: fmt::Write>(&self, f: &mut fmt::Formatter<W>) -> fmt::Result {
        write!(f, "no operation has code {}", self.0)
    }
}

impl Error for NoSuchOperation {}

impl Operation {
    /// The operation's code, 1 to 15. A method, since `u8::from(operation)` would not say what the byte counts.
    pub fn code(self) -> u8
        ensures value { result ≡ operation_code self }
        ensures bound { result < 16 }
        ensures back { named result ≡ Some self }
    {
        self as u8
    }

    /// Whether the value formed is stored; a comparison or a test only sets flags.
    pub fn stores(self) -> bool
        ensures { result ≡ storing self }
    {
        !matches!(
            self,
            Operation::Greater
                | Operation::Less
                | Operation::NotEqual
                | Operation::Equal
                | Operation::On
                | Operation::Off
        )
    }

    // Whether the next instruction is skipped, by Z and CY as the operation sets or leaves them.
    pub(crate) fn skips(self, zero: bool, carry: bool) -> bool
        ensures { result ≡ skipping self zero carry }
    {
        match self {
            Operation::And | Operation::Xor | Operation::Or => false,
            Operation::Add | Operation::AddWithCarry => false,
            Operation::Sub | Operation::SubWithCarry => false,
            Operation::AddSkipNoCarry | Operation::SubSkipNoBorrow | Operation::Greater => !carry,
            Operation::Less => carry,
            Operation::On | Operation::NotEqual => !zero,
            Operation::Off | Operation::Equal => zero,
        }
    }
}
