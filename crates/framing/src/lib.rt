// The form of a frame: a length of 16 bits, low byte first, and as many bytes after it.
#![tactic(auto)]

ghost use Rattle.std.specs.Prelude.{◌≡◌};
ghost use Rattle.framing.specs.Frame.{little as Frame·little, framed as Frame·framed, frame_of};

pub mod input;

// What the bytes at hand begin with.
#[derive(Clone, Copy)]
pub enum Frame {
    // There are none.
    End,
    // A part of a frame: more bytes would tell.
    Part,
    // A length that no frame has.
    Bad,
    // A whole frame, of so many bytes after its length.
    Whole(usize),
}

impl Frame {
    // The bytes of a frame's length.
    pub const LENGTH: usize = 2;
    // The bytes after the length, at least and at most.
    pub const SHORTEST: usize = 2;

    pub const LONGEST: usize = 130;

    // What the bytes at hand begin with.
    #[tactic(auto, unfolding(crate::specs::Frame::frame_of))]
    pub fn of(s: &[u8]) -> Frame
        ensures { result ≡ frame_of s.now }
    {
        match s {
            [] => Frame::End,
            [_] => Frame::Part,
            [low, high, rest @ ..] => framed(little(*low, *high), rest.len()),
        }
    }
}

// 16 bits, the low byte first.
pub fn little(low: u8, high: u8) -> usize
    ensures { result ≡ Frame·little low high }
{
    usize::from(u16::from_le_bytes([low, high]))
}

// By the length, and how many bytes there are after it.
#[tactic(auto, unfolding(crate::specs::Frame::framed))]
fn framed(n: usize, there: usize) -> Frame
    ensures { result ≡ Frame·framed n there }
{
    if (Frame::SHORTEST <= n) & (n <= Frame::LONGEST) {
        if n <= there {
            Frame::Whole(n)
        } else {
            Frame::Part
        }
    } else {
        Frame::Bad
    }
}
