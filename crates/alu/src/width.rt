// The two widths of an operand.
ghost use Rattle.std.specs.Prelude.{◌≡◌, ◌%◌};
ghost use Rattle.alu.specs.Widths.{whole, part};

#[derive(Clone, Copy, PartialEq, Eq, Debug)]
pub enum Width {
    Byte,
    Word,
}

impl Width {
    // How many values it has.
    pub(crate) fn modulus(self) -> u32
        ensures { result ≡ whole self }
    {
        match self {
            Width::Byte => 0x100,
            Width::Word => 0x1_0000,
        }
    }

    // As many low bits of a number as it has.
    pub(crate) fn low(self, number: u16) -> u16
        ensures { result ≡ number % whole self }
    {
        (u32::from(number) % self.modulus()) as u16
    }

    // The weight of the bit that takes the half carry.
    pub(crate) fn half_place(self) -> u32
        ensures { result ≡ part self }
    {
        match self {
            Width::Byte => 0x10,
            Width::Word => 0x1000,
        }
    }
}
