// A bank of the eight 8-bit registers; there are two, the main one and its alternate.
ghost use Rattle.std.specs.Prelude.{◌≡◌, ◌%◌};
ghost use Rattle.registers.specs.Numbering.{byte_register, held, holding};

#[derive(Clone, Copy, PartialEq, Eq, Debug)]
pub enum ByteRegister {
    V,
    A,
    B,
    C,
    D,
    E,
    H,
    L,
}

impl ByteRegister {
    /// The register that the low three bits of a byte name. A method, since an opcode holds more than that code, so that the byte as a whole is no register.
    pub fn of_code(code: u8) -> ByteRegister
        ensures { result ≡ byte_register (code % 8) }
    {
        match code % 8 {
            0 => ByteRegister::V,
            1 => ByteRegister::A,
            2 => ByteRegister::B,
            3 => ByteRegister::C,
            4 => ByteRegister::D,
            5 => ByteRegister::E,
            6 => ByteRegister::H,
            _ => ByteRegister::L,
        }
    }
}

#[derive(Clone, Copy, PartialEq, Eq, Debug, Default)]
pub struct Bank {
    pub v: u8,
    pub a: u8,
    pub b: u8,
    pub c: u8,
    pub d: u8,
    pub e: u8,
    pub h: u8,
    pub l: u8,
}

impl Bank {
    pub fn get(&self, register: ByteRegister) -> u8
        ensures { result ≡ held register self.now }
    {
        match register {
            ByteRegister::V => self.v,
            ByteRegister::A => self.a,
            ByteRegister::B => self.b,
            ByteRegister::C => self.c,
            ByteRegister::D => self.d,
            ByteRegister::E => self.e,
            ByteRegister::H => self.h,
            ByteRegister::L => self.l,
        }
    }

    pub fn set(&mut self, register: ByteRegister, value: u8)
        ensures { self.new ≡ holding register value self.old }
    {
        match register {
            ByteRegister::V => self.v = value,
            ByteRegister::A => self.a = value,
            ByteRegister::B => self.b = value,
            ByteRegister::C => self.c = value,
            ByteRegister::D => self.d = value,
            ByteRegister::E => self.e = value,
            ByteRegister::H => self.h = value,
            ByteRegister::L => self.l = value,
        }
    }
}
