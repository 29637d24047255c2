// A stretch of bits that must all be zero.
ghost use Rattle.std.specs.Prelude.{◌≡◌, ◌+◌, ◌*◌, ◌^◌, ◌≤◌, ◌<◌, length};
ghost use Rattle.bits.specs.Bits.{all_zero};
ghost use Rattle.bits.specs.Fields.{flat};
ghost use Rattle.bits.specs.Overlay.{stretch};

use crate::field::bits_at;

// Whether the n bits from bit at on are all zero.
pub fn zeros_at(s: &[u8], at: usize, n: usize) -> bool
    requires { (at + n ≤ length s.now * 8) × (length s.now < 2 ^ 61) }
    ensures { result ≡ all_zero (stretch at n (flat 8 s.now)) }
{
    for k in 0..n / 56 {
        if bits_at(s, at + k * 56, 56) != 0 {
            return false;
        }
    }
    bits_at(s, at + n / 56 * 56, n % 56) == 0
}
