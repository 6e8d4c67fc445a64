// Judging a file: the check of every condition at every state, with its report, and the test of one condition at one state.
#![tactic(auto)]

ghost use Rattle.std.specs.Prelude.{◌≡◌, length};
ghost use Rattle.verdicts.specs.Verdict.{check_of, single_of};
ghost use Rattle.deciding.specs.Decision.{Decides};
ghost use Rattle.report.specs.Report.{report_of};
ghost use Rattle.soundness.specs.System.{Claim};

use report::{Verdict, write_report};
use shapes::Refusal;
use verdicts::{answer, refused, verdict};

// Checks a file: 0 and the total of its conditions where all of them are true, so that what the file claims is true of every run; else the refusal
// that meets it. The report has the same fields. Every call ends in such an answer (C12.8).
pub fn check(file: &[u8], report: &mut [u8]) -> Verdict
    ensures verdict { result ≡ check_of file.now (length report.old) }
    ensures written { report.new ≡ report_of result report.old }
    ensures decides { Decides file.now (length report.old) result }
    ensures sound { result.number ≡ 0 → Claim file.now }
{
    if report.len() < 32 {
        return refused(Refusal::Buffer);
    }
    let found = verdict(file, true);
    write_report(found, report);
    found
}

// Tests one condition at one state, by their numbers. Every call ends in an answer (C12.8).
pub fn single(file: &[u8], condition: usize, state: usize) -> Result<bool, Refusal>
    ensures { result ≡ single_of file.now condition state }
{
    answer(file, condition, state)
}
