// A short slice of bytes as one number, and back.
ghost use Rattle.std.specs.Prelude.{◌≡◌, ◌*◌, ◌≤◌, ◌<◌, ◌^◌, length};
ghost use Rattle.bits.specs.Bits.{bits, val};
ghost use Rattle.bits.specs.Fields.{flat, words};

// The number that at most eight bytes are, the first byte highest. Eight are taken by halves, which compiles to one load.
pub fn load(s: &[u8]) -> u64
    requires { length s.now ≤ 8 }
    ensures { result ≡ val (flat 8 s.now) }
{
    if s.len() == 8 {
        let half = 4;
        fold(&s[..half]) * 0x1_0000_0000 + fold(&s[half..])
    } else {
        fold(s)
    }
}

// The same, byte by byte.
fn fold(s: &[u8]) -> u64
    requires { length s.now ≤ 8 }
    ensures { result ≡ val (flat 8 s.now) }
{
    let mut x = 0u64;
    for b in s {
        x = x * 256 + u64::from(*b);
    }
    x
}

// Fills the bytes with the low bits of v, the last byte lowest.
pub fn store(s: &mut [u8], v: u64)
    ensures { s.new ≡ words 8 (length s.old) (bits (length s.old * 8) v) }
{
    let mut rest = v;
    for i in (0..s.len()).rev() {
        s[i] = (rest % 256) as u8;
        rest /= 256;
    }
}

// A power of two that a u64 holds.
pub fn pow2(w: usize) -> u64
    requires { w < 64 }
    ensures { result ≡ 2 ^ w }
{
    1u64 << w
}
