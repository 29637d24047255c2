// RDS groups, FIGs, blocks and data units.
ghost use Rattle.std.specs.Prelude.{◌≡◌, length, drop};
ghost use Rattle.bits.specs.Fields.{flat};
ghost use Rattle.rds.specs.Read.{read_group};
ghost use Rattle.rds.specs.Write.{write_group, buffer_after};
ghost use Rattle.refusal.specs.Number.{refusal_in};
ghost use Rattle.fig.specs.Format.{header_length};
ghost use Rattle.fig.specs.Read.{read_fig, words_after as fig_words};
ghost use Rattle.fib.specs.Read.{read_block, read_words, room_in, words_after as block_words, origins_after};
ghost use Rattle.crc.specs.Register.{check_word};
ghost use Rattle.crc.specs.Block.{payload};
ghost use Rattle.drm.specs.Read.{read_unit, words_after as unit_words};
ghost use Rattle.drm_write.specs.Write.{write_unit, bytes_after as unit_bytes};
ghost use Rattle.c_answers.specs.Carriers.{group_reading, received, fig_reading, fib_reading, unit_reading};
ghost use Rattle.c_answers.specs.Reports.{written_by};

use c_answers::carriers::{FibReading, FigReading, GroupReading, Received, UnitReading};
use c_answers::refusals::refusal_in;
use c_answers::reports::Written;
use c_values::runs::PlainRun;
use drm::DataUnit;
use fib::Fib;
use fig::Fig;
use rds::{Group, Run};

// Reads a group of eight bytes. Another length is refused (1), then another type or version (2).
#[unsafe(no_mangle)]
pub extern "C" fn alertc_rds_read(bytes: &[u8]) -> GroupReading
    ensures { result ≡ group_reading (read_group bytes.now) }
{
    GroupReading::from(Group::read(bytes))
}

// Writes a group of eight bytes. A field out of its range is refused (9), then too small a buffer (15).
#[unsafe(no_mangle)]
pub extern "C" fn alertc_rds_write(group: Group, out: &mut [u8]) -> u8
    ensures value { result ≡ refusal_in (write_group group (length out.old)) }
    ensures out_after { out.new ≡ buffer_after group out.old }
{
    refusal_in(group.write(out))
}

// Takes a group into the run. A run that no calls give is refused (9); so is what is no group, as `alertc_rds_read` refuses it. The run then stays.
#[unsafe(no_mangle)]
pub extern "C" fn alertc_rds_receive(run: PlainRun, bytes: &[u8]) -> Received
    ensures { result ≡ received run bytes.now }
{
    match Run::try_from(run) {
        Ok(state) => Received::from(state.receive(bytes)),
        Err(refusal) => Received {
            run,
            refusal: refusal.into(),
            ..Received::default()
        },
    }
}

// Reads a FIG, and its words into the lent ones.
#[unsafe(no_mangle)]
pub extern "C" fn alertc_fig_read(bytes: &[u8], words: &mut [u64]) -> FigReading
    ensures value { result ≡ fig_reading (read_fig bytes.now (length words.old)) }
    ensures words_after { words.new ≡ fig_words (read_fig bytes.now (length words.old)) (drop header_length bytes.now) words.old }
{
    FigReading::from(Fig::read(bytes, words))
}

// Reads a block, the words of its FIGs 5/1 into the lent ones, and D1 and TCId of each word's FIG into the lent origins.
#[unsafe(no_mangle)]
pub extern "C" fn alertc_fib_read(bytes: &[u8], words: &mut [u64], origins: &mut [u8]) -> FibReading
    ensures value { result ≡ fib_reading (read_block bytes.now (room_in words.old origins.old)) }
    ensures words_after { words.new ≡ block_words (read_words bytes.now (room_in words.old origins.old)) words.old }
    ensures origins_after { origins.new ≡ origins_after (read_words bytes.now (room_in words.old origins.old)) origins.old }
{
    FibReading::from(Fib::read(bytes, words, origins))
}

// Reads a data unit, and its words into the lent ones.
#[unsafe(no_mangle)]
pub extern "C" fn alertc_drm_read(bytes: &[u8], words: &mut [u64]) -> UnitReading
    ensures value { result ≡ unit_reading (read_unit bytes.now (length words.old)) }
    ensures words_after { words.new ≡ unit_words (read_unit bytes.now (length words.old)) (flat 8 (payload bytes.now)) words.old }
{
    UnitReading::from(DataUnit::read(bytes, words))
}

// Writes a data unit with these words. What the rules shut out is refused (9), then too small a buffer (15).
#[unsafe(no_mangle)]
pub extern "C" fn alertc_drm_write(unit: DataUnit, words: &[u64], out: &mut [u8]) -> Written
    ensures value { result ≡ written_by (write_unit unit words.now (length out.old)) }
    ensures out_after { out.new ≡ unit_bytes (write_unit unit words.now (length out.old)) unit words.now out.old }
{
    Written::from(drm_write::write(unit, words, out))
}

// The check word of DRM data units.
#[unsafe(no_mangle)]
pub extern "C" fn alertc_check_word(bytes: &[u8]) -> u16
    ensures { result ≡ check_word bytes.now }
{
    crc::check_word(bytes)
}
