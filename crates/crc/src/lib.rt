// The check word: a register of 16 stages, 0 to 15, which the bits enter one at a time; and blocks that end with it.
#![tactic(auto)]

ghost use Rattle.std.specs.Prelude.{◌≡◌};
ghost use Rattle.bits.specs.Bits.{bits};
ghost use Rattle.crc.specs.Register.{shifted, entered, check_word};

pub mod block;

// The check word of some bytes: all stages are one at the start, and the register is inverted at the end.
pub fn check_word(s: &[u8]) -> u16
    ensures { result ≡ check_word s.now }
{
    let mut register = 0xFFFF;
    for byte in s {
        register = with_byte(register, *byte);
    }
    register ^ 0xFFFF
}

// The register after the eight bits of a byte, the highest first.
fn with_byte(mut register: u16, byte: u8) -> u16
    ensures { result ≡ entered register (bits 8 byte) }
{
    for i in (0..8u8).rev() {
        register = step(register, (byte >> i) % 2 == 1);
    }
    register
}

// The register after one bit: the feedback is stage 15 xor the bit; the stages move up by one, and the feedback enters stages 0, 5 and 12.
fn step(register: u16, bit: bool) -> u16
    ensures { result ≡ shifted register bit }
{
    let feedback = (register >> 15) ^ (bit as u16);
    let taps = feedback ^ (feedback << 5) ^ (feedback << 12);
    (register << 1) ^ taps
}
