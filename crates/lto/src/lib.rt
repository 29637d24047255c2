// LTO, a signed number of half hours, from and to its field of six bits.
#![tactic(auto)]

ghost use Rattle.std.specs.Prelude.{◌≡◌, ◌<◌, IfSome};
ghost use Rattle.lto.specs.Offset.{lto_of, lto_field};

// A field of six bits is below this.
pub const FIELDS: u64 = 64;
// The sign bit of a field. Numbers of half hours are below it.
const SIGN: u8 = 32;

// A sign bit and five bits of half hours as a signed number.
#[tactic(auto, unfolding(crate::specs::Offset::lto_of))]
pub fn half_hours(field: u8) -> i8
    ensures { result ≡ lto_of field }
{
    if field < SIGN {
        field as i8
    } else {
        -((field % SIGN) as i8)
    }
}

// The field of an LTO, if it is in range. Zero half hours to the west have none of their own.
#[tactic(auto, unfolding(crate::specs::Offset::lto_field))]
pub fn lto_field(lto: i8) -> Option<u64>
    ensures value { result ≡ lto_field lto }
    ensures small { IfSome result (λ field. field < 64) }
{
    let size = lto.unsigned_abs();
    if SIGN <= size {
        None
    } else if lto < 0 {
        Some((SIGN + size) as u64)
    } else {
        Some(size as u64)
    }
}
