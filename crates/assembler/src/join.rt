// The contents of an open message and of its last group, joined into one run of bits and read.
ghost use Rattle.std.specs.Prelude.{◌≡◌, true, [], ◌∷◌, ◌++◌, ◌≤◌, ◌+◌, ◌*◌, take};
ghost use Rattle.bits.specs.Fields.{flat};
ghost use Rattle.content.specs.Halves.{bits_of};
ghost use Rattle.content.specs.Packing.{group_bits};
ghost use Rattle.report.specs.Read.{read_report};
ghost use Rattle.assembler.specs.State.{contents_of};
ghost use Rattle.assembler.specs.Fits.{partial_fits};
ghost use Rattle.assembler.specs.Joining.{put_before};

use crate::Partial;
use content::content::Content;
use report::{Report, Unreadable};

// The message that a last group completes, read.
pub(crate) fn read_whole(p: Partial, content: u32) -> Result<Report, Unreadable>
    requires { partial_fits p ≡ true }
    ensures { result ≡ read_report p.head (contents_of p ++ content ∷ []) }
{
    let bits = joined(p, content);
    Report::multi(p.head, bits, Content::GROUP * (p.count as usize + 1))
}

// The contents so far and one more behind them.
fn joined(p: Partial, content: u32) -> Content
    requires { p.count ≤ 3 }
    ensures { take (group_bits * (p.count + 1)) (bits_of result) ≡ flat group_bits (contents_of p ++ content ∷ []) }
{
    let last = Content::new().prefixed(Content::GROUP, content as u64);
    let third = before(p.count, 2, p.third, last);
    let second = before(p.count, 1, p.second, third);
    before(p.count, 0, p.first, second)
}

// The content at a position put before others, if the position is in use.
#[tactic(auto, unfolding(crate::specs::Joining::group_before, crate::specs::Joining::put_before))]
fn before(count: u8, position: u8, content: u32, others: Content) -> Content
    ensures { result ≡ put_before count position content others }
{
    if position < count {
        others.prefixed(Content::GROUP, content as u64)
    } else {
        others
    }
}
