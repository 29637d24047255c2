// The two clocks of a service: minutes of UTC and minutes of its local time. Only `local` turns one into the other.
#![tactic(auto)]

ghost use Rattle.std.specs.Prelude.{◌≡◌};
ghost use Rattle.clock.specs.Time.{local_of, to_midnight, shifted, offset_fits};
ghost use Rattle.clock.specs.Expiry.{expiry_answer};

use refusal::Refusal;

// A minute of UTC, counted from a midnight.
#[derive(Clone, Copy, Debug, PartialEq, Eq, PartialOrd, Ord)]
pub struct Utc(pub u32);

// A minute of service local time, counted from a midnight that lies before every minute of UTC. Only `Utc::local` makes one.
#[derive(Clone, Copy)]
pub struct Local(u64);

// By how many half hours a shifted offset is too high: it is counted from -128, the least that eight bits hold.
const SHIFT: i16 = 128;

impl Utc {
    // The largest minute of a call.
    pub const LARGEST: u32 = 4_000_000_000;

    // The longest life of a message, in minutes.
    pub const LONGEST_LIFE: u16 = 10080;

    // The local minute: 30 minutes later for each half hour of offset.
    #[tactic(auto, using(crate::proofs::Offsets::local_shifted))]
    pub fn local(self, lto: i8) -> Local
        ensures { result.0 ≡ local_of self.0 lto }
    {
        Local(self.0 as u64 + Local::UNSHIFTED + Local::HALF_HOUR * shifted_offset(lto) as u64)
    }

    // The minute at which a message of this life ends; life 0 ends at the next midnight of the service. Refused, in this order: a life that
    // is too long (10), an offset out of its range (9), a minute too large (13).
    #[tactic(auto, unfolding(crate::specs::Expiry::expiry_answer, crate::specs::Time::expiry_of, crate::specs::Time::to_midnight))]
    pub fn expiry(self, lto: i8, life: u16) -> Result<Utc, Refusal>
        ensures { result ≡ expiry_answer self.0 lto life }
    {
        if Self::LONGEST_LIFE < life {
            return Err(Refusal::Malformed);
        }
        if !offset_fits(lto) {
            return Err(Refusal::Unfit);
        }
        if Utc(Self::LARGEST) < self {
            return Err(Refusal::WrongMinute);
        }
        if life == 0 {
            let local = self.local(lto);
            Ok(Utc(self.0 + local.to_midnight()))
        } else {
            Ok(Utc(self.0 + life as u32))
        }
    }
}

impl Local {
    // The minutes of a day, and of half an hour.
    pub const DAY: u64 = 1440;

    const HALF_HOUR: u64 = 30;

    // The largest offset, in half hours either way.
    const LARGEST_OFFSET: u8 = 31;

    // Local minutes begin three days before those of UTC; of these the half hours of a shifted offset are taken.
    const UNSHIFTED: u64 = 3 * Self::DAY - Self::HALF_HOUR * SHIFT as u64;

    // The minutes until the next midnight, 1 to 1,440.
    #[tactic(auto, unfolding(crate::specs::Time::to_midnight))]
    pub fn to_midnight(self) -> u32
        ensures { result ≡ to_midnight self.0 }
    {
        (Self::DAY - self.0 % Self::DAY) as u32
    }
}

// Whether a local time offset is in its range, -31 to 31 half hours.
#[tactic(auto, unfolding(crate::specs::Time::offset_fits))]
pub fn offset_fits(lto: i8) -> bool
    ensures { result ≡ offset_fits lto }
{
    lto.unsigned_abs() <= Local::LARGEST_OFFSET
}

// A local time offset counted from -128, so never negative.
#[tactic(auto, using(crate::proofs::Offsets::sum_shifted), unfolding(crate::specs::Time::shifted))]
fn shifted_offset(lto: i8) -> u16
    ensures { result ≡ shifted lto }
{
    (lto as i16 + SHIFT) as u16
}
