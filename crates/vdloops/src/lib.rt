// The check by the labelled loops alone, for the benchmark: what whole boxes of states gain is measured against it.
#![tactic(auto)]

ghost use Rattle.std.specs.Prelude.{◌≡◌};
ghost use Rattle.verdicts.specs.Verdict.{verdict_of};

use report::Verdict;
use verdicts::verdict;

// The verdict that `vd_check` gives where the report has room; none is written here.
#[unsafe(no_mangle)]
pub extern "C" fn vd_loops(file: &[u8]) -> Verdict
    ensures { result ≡ verdict_of file.now }
{
    verdict(file, false)
}
