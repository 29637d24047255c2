// An open message: how it begins, whether a later group's turn has come, and how it goes on.
ghost use Rattle.std.specs.Prelude.{◌≡◌, true, cond, [], ◌∷◌, ◌++◌, ◌≤◌, eqb};
ghost use Rattle.transmission.specs.Step.{in_turn};
ghost use Rattle.assembler.specs.State.{contents_of, partial_of};
ghost use Rattle.assembler.specs.Fits.{partial_fits};

use crate::Partial;
use word::Head;

impl Partial {
    // A message of which only the first group is there.
    #[tactic(auto, unfolding(crate::specs::State::partial_of))]
    pub(crate) fn opened(ci: u8, head: Head) -> Self
        ensures { result ≡ partial_of ci head 0 [] }
    {
        Partial {
            ci,
            head,
            ..Partial::default()
        }
    }

    // Whether a later group with this mark and GSI comes next.
    #[tactic(auto, using(crate::proofs::Turns::first_turn, crate::proofs::Turns::next_turn))]
    pub(crate) fn in_turn(self, second: u8, gsi: u8) -> bool
        ensures { result ≡ in_turn self.gsi (contents_of self) second gsi }
    {
        if self.count == 0 {
            second == 1
        } else {
            (second == 0) & (self.gsi as usize == gsi as usize + 1)
        }
    }

    // With one later group more, of this GSI and content.
    pub(crate) fn extended(self, gsi: u8, content: u32) -> Self
        requires { (self.count ≤ 2) × (partial_fits self ≡ true) }
        ensures { result ≡ partial_of self.ci self.head gsi (contents_of self ++ content ∷ []) }
    {
        let head = self.head;
        Partial {
            ci: self.ci,
            head,
            gsi,
            count: self.count + 1,
            first: put(self.count, 0, self.first, content),
            second: put(self.count, 1, self.second, content),
            third: put(self.count, 2, self.third, content),
        }
    }
}

// The new content at the first position that is not in use, and the old one at any other.
fn put(count: u8, position: u8, old: u32, new: u32) -> u32
    ensures { result ≡ cond (eqb count position) new old }
{
    if count == position { new } else { old }
}
