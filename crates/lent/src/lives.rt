// Whether lives are well-formed.
ghost use Rattle.std.specs.Prelude.{◌≡◌};
ghost use Rattle.lent.specs.Lives.{lives_fit};

use crate::Lent;
use clock::Utc;

// Whether there are 16 lives of at most 10,080 minutes.
#[tactic(auto, unfolding(crate::specs::Lives::lives_fit))]
pub fn lives_fit(l: &[u16]) -> bool
    ensures { result ≡ lives_fit l.now }
{
    if l.len() != Lent::LIVES {
        return false;
    }
    l.iter().all(|life| *life <= Utc::LONGEST_LIFE)
}
