// The assembler's state: an open message as it is, and all 0 where none is open. Both types are the assembler's, so these are functions.
ghost use Rattle.std.specs.Prelude.{◌≡◌};
ghost use Rattle.c_values.specs.States.{state_from, state_of};

use assembler::{Assembler, Partial};

// A state as C has it.
pub fn state_of(state: Assembler) -> Partial
    ensures { result ≡ state_of state }
{
    match state {
        Assembler::Empty => Partial::default(),
        Assembler::Started(p) => p,
    }
}

// The state; what no calls give is an open message that the assembler refuses.
pub fn state_from(p: Partial) -> Assembler
    ensures { result ≡ state_from p }
{
    if p == Partial::default() {
        Assembler::Empty
    } else {
        Assembler::Started(p)
    }
}
