// Multiplication and division.
ghost use Rattle.std.specs.Prelude.{◌≡◌};
ghost use Rattle.alu.specs.Products.{product, quotient, remainder};

/// The product of two bytes.
pub fn multiply(a: u8, b: u8) -> u16
    ensures { result ≡ product a b }
{
    u16::from(a) * u16::from(b)
}

/// The quotient by a register, which takes the remainder. By zero it is FFFFH, and the register is left.
pub fn divide(dividend: u16, register: &mut u8) -> u16
    ensures value { result ≡ quotient dividend register.old }
    ensures after { register.new ≡ remainder dividend register.old }
{
    let divisor = u16::from(*register);
    if divisor == 0 {
        return 0xffff;
    }
    *register = (dividend % divisor) as u8;
    dividend / divisor
}
