// A block read: the checks of the whole block, and then its FIGs in order.
ghost use Rattle.std.specs.Prelude.{◌≡◌, ◌<◌, [], length};
ghost use Rattle.std.specs.Result.{result_unwrap_or};
ghost use Rattle.bits.specs.Outcome.{mapped};
ghost use Rattle.fig.specs.Read.{read_fig};
ghost use Rattle.fib.specs.Figs.{ended, rest};
ghost use Rattle.fib.specs.Walk.{is_tmc, carried, read_one};
ghost use Rattle.fib.specs.Read.{check_block, ending, read_block, read_words, room_in, walk_into, origin_of, words_after, origins_after};

use crate::figs::{first_length, rest};
use crate::{Fib, Reading};
use bits::bytes::load;
use crc::block::is_checked;
use fig::Fig;
use refusal::Refusal;

impl Fib {
    // Reads a block: the words of its FIGs 5/1 into the first cells of one buffer, and beside each its FIG's D1 and TCId, as 8·D1 + TCId,
    // into those of another. Refuses another length (1), then the check word (4), then a FIG that runs past the data field (1); these leave
    // the buffers as they are. A FIG 5/1 that is refused ends the reading, after the words of those before it.
    // The words and their origins are two rows, since C lends them so.
    #[tactic(auto, using(crate::proofs::Blocks::field_length, crate::proofs::Blocks::data_field, crate::proofs::Blocks::block_length_lem), unfolding(crate::specs::Read::read_block, crate::specs::Read::read_words, crate::specs::Read::cells_after))]
    pub fn read(s: &[u8], words: &mut [u64], origins: &mut [u8]) -> Result<Reading, Refusal>
        ensures value { result ≡ read_block s.now (room_in words.old origins.old) }
        ensures words_after { words.new ≡ words_after (read_words s.now (room_in words.old origins.old)) words.old }
        ensures origins_after { origins.new ≡ origins_after (read_words s.now (room_in words.old origins.old)) origins.old }
    {
        check_block(s)?;
        Ok(walk(&s[..Fib::DATA], words, origins))
    }
}

// Reads the FIGs of a data field in order, each into what the ones before it left of the buffers.
fn walk(s: &[u8], words: &mut [u64], origins: &mut [u8]) -> Reading
    ensures value { result ≡ ending (walk_into s.now words.old origins.old) }
    ensures words_after { words.new ≡ words_after (walk_into s.now words.old origins.old).found words.old }
    ensures origins_after { origins.new ≡ origins_after (walk_into s.now words.old origins.old).found origins.old }
{
    let mut fib = Fib::new();
    while let Some(n) = first_length(&s[fib.at..]) {
        let end = fib.at + n;
        match read_one(
            &s[fib.at..end],
            &mut words[fib.count..],
            &mut origins[fib.count..],
        ) {
            Ok(k) => {
                fib.count += k;
                fib.at = end;
            }
            Err(refusal) => return Reading::Stopped { fib, refusal },
        }
    }
    Reading::Whole(fib.count)
}

// Checks a block before any of its FIGs is read.
#[tactic(auto, using(crate::proofs::Blocks::data_field, crate::proofs::Blocks::field_length), unfolding(crate::specs::Read::check_block))]
fn check_block(s: &[u8]) -> Result<(), Refusal>
    ensures { result ≡ check_block s.now }
{
    if s.len() != Fib::LENGTH {
        return Err(Refusal::WrongLength);
    }
    if !is_checked(s) {
        return Err(Refusal::WrongCheckWord);
    }
    if !is_ended(&s[..Fib::DATA]) {
        return Err(Refusal::WrongLength);
    }
    Ok(())
}

// Whether nothing or the end marker follows the whole FIGs.
#[tactic(auto, unfolding(crate::specs::Figs::ended))]
fn is_ended(s: &[u8]) -> bool
    ensures { result ≡ ended (rest s.now) }
{
    match rest(s) {
        [] => true,
        [byte, ..] => *byte == Fib::END_MARKER,
    }
}

// Reads one FIG, if it is a FIG 5/1, into the first cells of the buffers: how many words it gives, none if it is no FIG 5/1.
#[tactic(auto, using(crate::proofs::Carrying::one_tmc, crate::proofs::Carrying::one_other, crate::proofs::Walking::cells_none))]
fn read_one(f: &[u8], words: &mut [u64], origins: &mut [u8]) -> Result<usize, Refusal>
    ensures value { result ≡ mapped length (read_one (room_in words.old origins.old) f.now) }
    ensures words_after { words.new ≡ words_after (result_unwrap_or (read_one (room_in words.old origins.old) f.now) []) words.old }
    ensures origins_after { origins.new ≡ origins_after (result_unwrap_or (read_one (room_in words.old origins.old) f.now) []) origins.old }
{
    if is_tmc(f) {
        read_tmc(f, words, origins)
    } else {
        Ok(0)
    }
}

// Whether a FIG is a FIG 5/1.
#[tactic(auto, using(crate::proofs::TakenFigs::too_short, crate::proofs::TakenFigs::by_header))]
fn is_tmc(f: &[u8]) -> bool
    ensures { result ≡ is_tmc f.now }
{
    if f.len() < Fig::HEADER {
        return false;
    }
    let header = load(&f[..Fig::HEADER]);
    header / Fig::TYPE_WEIGHT % 8 == Fig::TYPE && header % 8 == Fig::EXTENSION
}

// Reads a FIG 5/1 into the first cells of the buffers.
#[tactic(auto, using(crate::proofs::Carrying::lent), unfolding(crate::specs::Walk::carried))]
fn read_tmc(f: &[u8], words: &mut [u64], origins: &mut [u8]) -> Result<usize, Refusal>
    ensures value { result ≡ mapped length (carried (read_fig f.now (room_in words.old origins.old)) f.now) }
    ensures words_after { words.new ≡ words_after (result_unwrap_or (carried (read_fig f.now (room_in words.old origins.old)) f.now) []) words.old }
    ensures origins_after { origins.new ≡ origins_after (result_unwrap_or (carried (read_fig f.now (room_in words.old origins.old)) f.now) []) origins.old }
{
    let room = words.len().min(origins.len());
    let reading = Fig::read(f, &mut words[..room])?;
    origins[..reading.count].fill(origin(reading.fig));
    Ok(reading.count)
}

// D1 and TCId as one number.
fn origin(fig: Fig) -> u8
    requires { (fig.d1 < 2) × (fig.tcid < 8) }
    ensures { result ≡ origin_of fig }
{
    fig.d1 * Fig::SERVICES + fig.tcid
}
