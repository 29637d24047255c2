// A block of bytes that ends with the check word of those before: the check word tested, and put in.
ghost use Rattle.std.specs.Prelude.{◌≡◌};
ghost use Rattle.crc.specs.Block.{is_checked, with_check};

use crate::check_word;
use bits::bytes::{load, store};

// The bytes of a check word.
pub const CHECK_LENGTH: usize = 2;

// Whether the last two bytes are the check word of those before. Fewer than two bytes are no block.
pub fn is_checked(s: &[u8]) -> bool
    ensures { result ≡ is_checked s.now }
{
    if s.len() < CHECK_LENGTH {
        return false;
    }
    let end = s.len() - CHECK_LENGTH;
    load(&s[end..]) == check_word(&s[..end]) as u64
}

// Puts the check word of the bytes before into the last two bytes. Fewer than two bytes stay.
pub fn put_check(s: &mut [u8])
    ensures { s.new ≡ with_check s.old }
{
    if s.len() < CHECK_LENGTH {
        return;
    }
    let end = s.len() - CHECK_LENGTH;
    let check = check_word(&s[..end]) as u64;
    store(&mut s[end..], check);
}
