// Content bits by value: 128 of them, the first one highest.
ghost use Rattle.std.specs.Prelude.{◌≡◌, [], ◌++◌, ◌-◌, ◌*◌, ◌/◌, ◌%◌, ◌^◌, ◌<◌, take, drop};
ghost use Rattle.bits.specs.Bits.{bits, val, all_zero};
ghost use Rattle.content.specs.Content.{content_length};
ghost use Rattle.content.specs.Packing.{zeros, groups};
ghost use Rattle.content.specs.Halves.{bits_of, content_of, starting_with};

#[derive(Clone, Copy)]
pub struct Content {
    pub high: u64,
    pub low: u64,
}

impl Content {
    // Content bits of a later group.
    pub const GROUP: usize = 28;

    // Content bits of the four later groups that a message may have.
    pub const LONGEST: usize = 4 * Self::GROUP;

    // No bits yet: zero bits alone.
    pub fn new() -> Self
        ensures { result ≡ starting_with [] }
    {
        Content { high: 0, low: 0 }
    }

    // Whether two to five groups give n content bits.
    #[tactic(auto, unfolding(crate::specs::Content::content_length))]
    pub fn is_length(n: usize) -> bool
        ensures { result ≡ content_length n }
    {
        (n == Self::GROUP) | (n == 2 * Self::GROUP) | (n == 3 * Self::GROUP) | (n == Self::LONGEST)
    }

    // The fewest groups for n content bits: a first group, and at least one later group.
    pub fn groups(n: usize) -> usize
        ensures { result ≡ groups n }
    {
        if n <= Self::GROUP {
            2
        } else {
            (n - 1) / Self::GROUP + 2
        }
    }

    // The first w bits as a number.
    pub fn first_bits(self, w: usize) -> u64
        requires { w < 64 }
        ensures { result ≡ val (take w (bits_of self)) }
    {
        top(self.high, w)
    }

    // Whether the first n bits are all zero.
    pub(crate) fn starts_zero(self, n: usize) -> bool
        requires { n < 128 }
        ensures { result ≡ all_zero (take n (bits_of self)) }
    {
        if n < 64 {
            top(self.high, n) == 0
        } else {
            (self.high == 0) & (top(self.low, n - 64) == 0)
        }
    }

    // The bits after the first w, and w zero bits.
    pub fn shifted_left(self, w: usize) -> Self
        requires { w < 64 }
        ensures { result ≡ content_of (drop w (bits_of self) ++ zeros w) }
    {
        Content {
            high: (self.high << w) + top(self.low, w),
            low: self.low << w,
        }
    }

    // The low w bits of v, and all but the last w bits.
    pub fn prefixed(self, w: usize, v: u64) -> Self
        requires { w < 64 }
        ensures { result ≡ content_of (bits w v ++ take (128 - w) (bits_of self)) }
    {
        Content {
            high: raised(v, w) + (self.high >> w),
            low: raised(self.high, w) + (self.low >> w),
        }
    }
}

// The w highest of 64 bits; in two shifts, since one of 64 is none.
fn top(x: u64, w: usize) -> u64
    requires { w < 64 }
    ensures { result ≡ x / 2 ^ (64 - w) }
{
    x >> 1 >> (63 - w)
}

// The w lowest bits, made the highest of 64.
fn raised(x: u64, w: usize) -> u64
    requires { w < 64 }
    ensures { result ≡ x % 2 ^ w * 2 ^ (64 - w) }
{
    x << (63 - w) << 1
}
