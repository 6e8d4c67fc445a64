// The report of a verdict: 32 bytes.
#![tactic(auto)]

ghost use Rattle.std.specs.Prelude.{◌≡◌, ◌++◌, ◌≤◌, length, take, drop};
ghost use Rattle.report.specs.Report.{value_bytes, report_of};

use integers::bytes::{high_byte, low_byte};

// The number of the refusal, or 0; the broken condition's node and transition, 255 for none; the condition, a refusal's place, or the total; the values
// of the state that breaks the condition. Beside what is reported, the tests made.
#[repr(C)]
#[derive(Clone, Copy)]
pub struct Verdict {
    pub number: u8,
    pub node: u8,
    pub transition: u8,
    pub at: u32,
    pub values: [i16; 12],
    pub tests: u64,
}

// The values, two bytes each, from byte 8 on.
fn put_values(values: [i16; 12], report: &mut [u8])
    requires { 32 ≤ length report.old }
    ensures { report.new ≡ take 8 report.old ++ (value_bytes values ++ drop 32 report.old) }
{
    for (i, value) in values.iter().enumerate() {
        report[2 * i + 8] = low_byte(*value);
        report[2 * i + 9] = high_byte(*value);
    }
}

// The verdict, in the first 32 bytes of a report that has room for them. A shorter one is left as it is.
pub fn write_report(verdict: Verdict, report: &mut [u8])
    ensures { report.new ≡ report_of verdict report.old }
{
    if report.len() < 32 {
        return;
    }
    let Verdict {
        number,
        node,
        transition,
        at,
        values,
        ..
    } = verdict;
    let [a, b, c, d] = at.to_le_bytes();
    report[..8].copy_from_slice(&[number, node, transition, 0, a, b, c, d]);
    put_values(values, report);
}
