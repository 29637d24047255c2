// Bytes that are kept until more are there.
ghost use Rattle.std.specs.Prelude.{◌≡◌, ◌-◌, ◌≤◌, length};
ghost use Rattle.framing.specs.Input.{kept};

// Moves the bytes from an index on to the front, and answers how many they are.
pub fn keep(s: &mut [u8], from: usize) -> usize
    requires { from ≤ length s.old }
    ensures value { result ≡ length s.old - from }
    ensures s_after { s.new ≡ kept from s.old }
{
    let n = s.len() - from;
    s.copy_within(from.., 0);
    n
}
