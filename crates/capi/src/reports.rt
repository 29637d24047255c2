// Reports and the assembler.
ghost use Rattle.std.specs.Prelude.{◌≡◌, length};
ghost use Rattle.report_write.specs.Write.{write_report, words_after};
ghost use Rattle.report.specs.Read.{read_report};
ghost use Rattle.assembler.specs.Step.{step_of};
ghost use Rattle.c_values.specs.Reports.{report_from};
ghost use Rattle.c_values.specs.States.{state_from};
ghost use Rattle.c_answers.specs.Reports.{written_by, step_answer};

use assembler::Partial;
use c_answers::reports::{AssemblerAnswer, Written};
use c_values::reports::PlainReport;
use c_values::states::state_from;

// Writes the words of a report with a continuity index. What no message says is refused (9), then too small a buffer (15).
#[unsafe(no_mangle)]
pub extern "C" fn alertc_report_write(report: PlainReport, ci: u8, words: &mut [u64]) -> Written
    ensures value { result ≡ written_by (write_report ci (report_from report) (length words.old)) }
    ensures words_after { words.new ≡ words_after ci (report_from report) words.old }
{
    Written::from(report_write::write(report.into(), ci, words))
}

// Takes a word into the assembler.
#[unsafe(no_mangle)]
pub extern "C" fn alertc_assembler_step(state: Partial, word: u64) -> AssemblerAnswer
    ensures { result ≡ step_answer (step_of read_report (state_from state) word) }
{
    AssemblerAnswer::from(state_from(state).step(word))
}
