// Bytes and decimal numbers in a lent buffer. The buffer and the position stay two parameters: in a struct that holds both each clause would
// speak of a buffer lent to a lent struct, and each caller that goes on with the buffer would take the struct apart.
ghost use Rattle.std.specs.Prelude.{◌≡◌, [], ◌∷◌, ◌+◌, ◌*◌, ◌≤◌, ◌<◌, length};
ghost use Rattle.lines.specs.Text.{Put};
ghost use Rattle.lines.specs.Decimal.{digit as Decimal·digit, decimal};
ghost use Rattle.lines.specs.Line.{fields, space, field_room};

// One byte.
#[tactic(auto, using(crate::proofs::Puts::put_one))]
pub fn put_byte(out: &mut [u8], at: usize, b: u8) -> usize
    requires { at < length out.old }
    ensures { Put at (b ∷ []) out.old result out.new }
{
    out[at] = b;
    at + 1
}

// Some bytes.
#[tactic(auto, unfolding(crate::specs::Text::put))]
pub fn put_bytes(out: &mut [u8], at: usize, s: &[u8]) -> usize
    requires { at + length s.now ≤ length out.old }
    ensures { Put at s.now out.old result out.new }
{
    let end = at + s.len();
    out[at..end].copy_from_slice(s);
    end
}

// A number.
#[tactic(auto, using(crate::proofs::Decimals::decimal_digit))]
pub fn put_decimal(out: &mut [u8], at: usize, n: u64) -> usize
    requires { at + length (decimal n) ≤ length out.old }
    ensures { Put at (decimal n) out.old result out.new }
{
    if n < 10 {
        put_byte(out, at, digit(n))
    } else {
        let next = put_decimal(out, at, n / 10);
        put_byte(out, next, digit(n % 10))
    }
}

// The character of a digit.
fn digit(d: u64) -> u8
    requires { d < 10 }
    ensures { result ≡ Decimal·digit d }
{
    b'0' + d as u8
}

// Numbers, each after a space.
pub fn put_fields(out: &mut [u8], at: usize, values: &[u64]) -> usize
    requires { at + field_room * length values.now ≤ length out.old }
    ensures put { Put at (fields values.now) out.old result out.new }
    ensures upper_bound { result ≤ at + field_room * length values.now }
{
    let mut end = at;
    for value in values {
        end = put_field(out, end, *value);
    }
    end
}

// A number after a space.
#[tactic(auto, using(crate::proofs::Rooms::digits_64))]
fn put_field(out: &mut [u8], at: usize, n: u64) -> usize
    requires { at + field_room ≤ length out.old }
    ensures put { Put at (space ∷ decimal n) out.old result out.new }
    ensures upper_bound { result ≤ at + field_room }
{
    let next = put_byte(out, at, b' ');
    put_decimal(out, next, n)
}
