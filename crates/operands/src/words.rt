// Words in registers: pairs, EA and SP.
ghost use Rattle.std.specs.Prelude.{◌≡◌};
ghost use Rattle.machine.specs.Operands.{word_in, with_word};

use machine::WordRegister;
use registers::file::Registers;

pub fn get_word(registers: &Registers, which: WordRegister) -> u16
    ensures { result ≡ word_in which registers.now }
{
    let main = &registers.main;
    match which {
        WordRegister::Va => u16::from_be_bytes([main.v, main.a]),
        WordRegister::Bc => u16::from_be_bytes([main.b, main.c]),
        WordRegister::De => u16::from_be_bytes([main.d, main.e]),
        WordRegister::Hl => u16::from_be_bytes([main.h, main.l]),
        WordRegister::Ea => registers.ea,
        WordRegister::Sp => registers.sp,
    }
}

pub fn set_word(registers: &mut Registers, which: WordRegister, word: u16)
    ensures { registers.new ≡ with_word which word registers.old }
{
    let [high, low] = word.to_be_bytes();
    match which {
        WordRegister::Va => {
            registers.main.v = high;
            registers.main.a = low;
        }
        WordRegister::Bc => {
            registers.main.b = high;
            registers.main.c = low;
        }
        WordRegister::De => {
            registers.main.d = high;
            registers.main.e = low;
        }
        WordRegister::Hl => {
            registers.main.h = high;
            registers.main.l = low;
        }
        WordRegister::Ea => registers.ea = word,
        WordRegister::Sp => registers.sp = word,
    }
}
