// A run of fields of one width, at most 56 bits each, one after the other.
ghost use Rattle.std.specs.Prelude.{◌≡◌, ◌+◌, ◌-◌, ◌*◌, ◌^◌, ◌≤◌, ◌<◌, length, drop};
ghost use Rattle.bits.specs.Bits.{val};
ghost use Rattle.bits.specs.Fields.{flat, words};
ghost use Rattle.bits.specs.Overlay.{stretch, overlay};

use crate::bytes::{load, pow2};
use crate::field::{bits_at, put_bits};

// Fills out with the fields of w bits from bit at on.
pub fn words_at(s: &[u8], at: usize, w: usize, out: &mut [u64])
    requires { (w ≤ 56) × (at + length out.old * w ≤ length s.now * 8) × (length s.now < 2 ^ 61) }
    ensures { out.new ≡ words w (length out.old) (drop at (flat 8 s.now)) }
{
    for (i, x) in out.iter_mut().enumerate() {
        *x = word_at(s, at + i * w, w);
    }
}

// The w bits from bit at on, as a number: where there are eight bytes, out of eight that hold them.
fn word_at(s: &[u8], at: usize, w: usize) -> u64
    requires { (w ≤ 56) × (at + w ≤ length s.now * 8) }
    ensures { result ≡ val (stretch at w (flat 8 s.now)) }
{
    if 8 <= s.len() && 0 < w {
        in_eight(s, (at / 8).min(s.len() - 8), at, w)
    } else {
        bits_at(s, at, w)
    }
}

// The w bits from bit at on, which the eight bytes from byte from on hold.
fn in_eight(s: &[u8], from: usize, at: usize, w: usize) -> u64
    requires { (from + 8 ≤ length s.now) × (from * 8 ≤ at) × (at + w ≤ from * 8 + 64) × (0 < w) × (w ≤ 56) }
    ensures { result ≡ val (stretch at w (flat 8 s.now)) }
{
    let to = from + 8;
    let k = 64 - (at - from * 8) - w;
    (load(&s[from..to]) >> k) % pow2(w)
}

// Puts the low w bits of each number of ws from bit at on; no other bit changes.
pub fn put_words(s: &mut [u8], at: usize, w: usize, ws: &[u64])
    requires { (w ≤ 56) × (at + length ws.now * w ≤ length s.old * 8) × (length s.old < 2 ^ 61) }
    ensures { flat 8 s.new ≡ overlay at (flat w ws.now) (flat 8 s.old) }
{
    for (i, x) in ws.iter().enumerate() {
        put_bits(s, at + i * w, w, *x);
    }
}
