// What the program prints.
ghost use Rattle.std.specs.Prelude.{◌≡◌, ◌/◌, ◌%◌, ◌<◌, get_or};
ghost use Rattle.soundness.specs.System.{Claim};
ghost use Rattle.verdicts.specs.Verdict.{check_of};
ghost use Rattle.vdcheck.specs.Printing.{digit_of, line_of, printed_of};

// The small hexadecimal digit of a number below 16, in ASCII.
fn digit(number: u8) -> u8
    requires { number < 16 }
    ensures { result ≡ digit_of number }
{
    if number < 10 {
        number + b'0'
    } else {
        number - 10 + b'a'
    }
}

// The first digit of a byte.
fn high_digit(byte: u8) -> u8
    ensures { result ≡ digit_of (byte / 16) }
{
    digit(byte / 16)
}

// And the second.
fn low_digit(byte: u8) -> u8
    ensures { result ≡ digit_of (byte % 16) }
{
    digit(byte % 16)
}

// The report as 64 digits and a line feed.
fn line(report: [u8; 32]) -> [u8; 65]
    ensures { result ≡ line_of report }
{
    let mut line = [b'\n'; 65];
    for (i, byte) in report.iter().enumerate() {
        line[2 * i] = high_digit(*byte);
        line[2 * i + 1] = low_digit(*byte);
    }
    line
}

// The line of a report, and the tests of its check.
#[derive(Clone, Copy)]
pub(crate) struct Printout {
    pub(crate) line: [u8; 65],
    pub(crate) tests: u64,
}

// What is printed for a file. A line that begins with 00 is an acceptance, and what the file claims is then true (C15.3).
pub(crate) fn printed(file: &[u8]) -> Printout
    ensures line { result.line ≡ printed_of file.now }
    ensures tests { result.tests ≡ (check_of file.now 32).tests }
    ensures sound { get_or result.line 0 0 ≡ 48 → get_or result.line 1 0 ≡ 48 → Claim file.now }
{
    let mut report = [0u8; 32];
    let verdict = judging::check(file, &mut report);
    let line = line(report);
    Printout {
        line,
        tests: verdict.tests,
    }
}
