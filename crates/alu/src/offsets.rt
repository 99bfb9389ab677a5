// The signed offsets of relative jumps.
ghost use Rattle.std.specs.Prelude.{◌≡◌, min};
ghost use Rattle.alu.specs.Offsets.{signed};

/// The low bits of a code as a signed number: six of JR's byte, -32 to 31, and nine of JRE's two bytes, the first as the high one, -256 to 255.
/// Of more than sixteen, all that a code has.
#[tactic(auto, using(crate::proofs::Signed::signs))]
pub fn extend<const BITS: u32>(code: u16) -> i16
    ensures { result ≡ signed (min BITS 16) code }
{
    let modulus = 1_u32 << BITS.min(16);
    let low = u32::from(code) % modulus;
    if 2 * low < modulus {
        low as i16
    } else {
        (low as i32 - modulus as i32) as i16
    }
}
