// FIGs one after the other, as their headers count their bytes.
ghost use Rattle.std.specs.Prelude.{◌≡◌};
ghost use Rattle.fib.specs.Figs.{first_length, rest};

use crate::Fib;

// What follows the whole FIGs at the front of some bytes.
#[tactic(auto, using(crate::proofs::Header::first_fits, crate::proofs::Structure::rest_none, crate::proofs::Structure::rest_part))]
pub(crate) fn rest(s: &[u8]) -> &[u8]
    ensures { result.now ≡ rest s.now }
{
    let mut left = s;
    while let Some(n) = first_length(left) {
        left = &left[n..];
    }
    left
}

// The bytes of the whole FIG at the front, if there is one.
#[tactic(auto, using(crate::proofs::Header::at_end, crate::proofs::Header::at_marker, crate::proofs::Header::counted, crate::proofs::Header::cut_off))]
pub(crate) fn first_length(s: &[u8]) -> Option<usize>
    ensures { result ≡ first_length s.now }
{
    let [header, ..] = s else {
        return None;
    };
    if *header == Fib::END_MARKER {
        return None;
    }
    let n = 1 + (*header % Fib::COUNTS) as usize;
    if n <= s.len() { Some(n) } else { None }
}
