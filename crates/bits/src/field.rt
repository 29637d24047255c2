// A field of at most 56 bits, which at any bit position lies within eight bytes.
ghost use Rattle.std.specs.Prelude.{◌≡◌, ◌+◌, ◌*◌, ◌/◌, ◌%◌, ◌^◌, ◌≤◌, ◌<◌, length};
ghost use Rattle.bits.specs.Bits.{bits, val};
ghost use Rattle.bits.specs.Fields.{flat};
ghost use Rattle.bits.specs.Overlay.{stretch, overlay};

use crate::bytes::{load, pow2, store};

// The w bits from bit at on, as a number.
pub fn bits_at(s: &[u8], at: usize, w: usize) -> u64
    requires { (w ≤ 56) × (at + w ≤ length s.now * 8) }
    ensures { result ≡ val (stretch at w (flat 8 s.now)) }
{
    let from = at / 8;
    let off = at % 8;
    let n = (off + w + 7) / 8;
    let to = from + n;
    let k = n * 8 - off - w;
    (load(&s[from..to]) >> k) % pow2(w)
}

// Puts the low w bits of v at bit at; no other bit changes.
pub fn put_bits(s: &mut [u8], at: usize, w: usize, v: u64)
    requires { (w ≤ 56) × (at + w ≤ length s.old * 8) }
    ensures { flat 8 s.new ≡ overlay at (bits w v) (flat 8 s.old) }
{
    let from = at / 8;
    let off = at % 8;
    let n = (off + w + 7) / 8;
    let to = from + n;
    let k = n * 8 - off - w;
    let x = replaced(load(&s[from..to]), w, k, v);
    store(&mut s[from..to], x);
}

// x with the low w bits of v in the place of those above its k lowest.
fn replaced(x: u64, w: usize, k: usize, v: u64) -> u64
    requires { (w ≤ 56) × (k < 8) }
    ensures { result ≡ x / 2 ^ (w + k) * 2 ^ (w + k) + (v % 2 ^ w * 2 ^ k + x % 2 ^ k) }
{
    let high = pow2(w + k);
    let low = pow2(k);
    x / high * high + (v % pow2(w) * low + x % low)
}
