// A report's content as the message table keeps it.
ghost use Rattle.std.specs.Prelude.{◌≡◌, length};
ghost use Rattle.bits.specs.Fields.{words};
ghost use Rattle.content.specs.Halves.{bits_of};
ghost use Rattle.report.specs.Record.{content_bytes, groups_for, pack_report, bytes_after};

use crate::{Form, Report};
use bits::bytes::store;
use content::content::Content;
use content::pack::pack;
use refusal::Refusal;

impl Report {
    // The bytes of the longest content.
    pub const CONTENT: usize = 14;

    // Puts the content into the first 14 cells of a buffer, first bit highest and zero filled, and answers how many groups the report
    // takes. A report that a writer does not take is unfit, and then a buffer may be too small; a refusal leaves the buffer.
    pub fn pack_content(self, out: &mut [u8]) -> Result<usize, Refusal>
        ensures value { result ≡ pack_report self (length out.old) }
        ensures out_after { out.new ≡ bytes_after self out.old }
    {
        if !self.fits() {
            return Err(Refusal::Unfit);
        }
        if out.len() < Report::CONTENT {
            return Err(Refusal::SmallBuffer);
        }
        let packed = pack(self.items)?;
        put_content(packed.content, &mut out[..Report::CONTENT]);
        Ok(groups_for(self.form, packed.bits))
    }
}

// Fills 14 cells with the first 112 bits.
fn put_content(content: Content, out: &mut [u8])
    requires { length out.old ≡ content_bytes }
    ensures { out.new ≡ words 8 content_bytes (bits_of content) }
{
    store(&mut out[0..8], content.high);
    store(&mut out[8..14], content.low / 0x1_0000);
}

// The groups of a report whose items take n bits.
#[tactic(auto, unfolding(crate::specs::Record::groups_for))]
fn groups_for(form: Form, n: usize) -> usize
    ensures { result ≡ groups_for form n }
{
    match form {
        Form::Single => 1,
        Form::Multi => Content::groups(n),
    }
}
