// The library for C and Rust: the check and the single test over plain bytes, whose answers are plain numbers.
#![tactic(auto)]

ghost use Rattle.std.specs.Prelude.{◌≡◌, length};
ghost use Rattle.verdicts.specs.Verdict.{check_of, single_of};
ghost use Rattle.deciding.specs.Decision.{Decides};
ghost use Rattle.report.specs.Report.{report_of};
ghost use Rattle.soundness.specs.System.{Claim};
ghost use Rattle.vdlib.specs.Tested.{tested_of};

use report::Verdict;

// `number` is 0 if the condition is tested, and `holds` tells whether it holds at the state; else it is the refusal's, with its place.
#[repr(C)]
#[derive(Clone, Copy)]
pub struct Tested {
    pub number: usize,
    pub place: usize,
    pub holds: bool,
}

// The check, for C and Rust: what `judging::check` promises, every call an answer (C12.8).
#[unsafe(no_mangle)]
pub extern "C" fn vd_check(file: &[u8], report: &mut [u8]) -> Verdict
    ensures result { result ≡ check_of file.now (length report.old) }
    ensures report { report.new ≡ report_of result report.old }
    ensures decides { Decides file.now (length report.old) result }
    ensures claim { result.number ≡ 0 → Claim file.now }
{
    judging::check(file, report)
}

// The single test, for C and Rust (C12.8, C13.4).
#[tactic(auto, unfolding(crate::specs::Tested::tested_of))]
#[unsafe(no_mangle)]
pub extern "C" fn vd_single(file: &[u8], condition: usize, state: usize) -> Tested
    ensures { result ≡ tested_of (single_of file.now condition state) }
{
    match judging::single(file, condition, state) {
        Ok(holds) => Tested {
            number: 0,
            place: 0,
            holds,
        },
        Err(refusal) => Tested {
            number: usize::from(refusal.number()),
            place: refusal.place(),
            holds: false,
        },
    }
}
