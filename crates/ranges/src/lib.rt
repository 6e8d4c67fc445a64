// The ranges of a file's variables, by their ends. A variable that the file lacks has the range 0..0.
#![tactic(auto)]

ghost use Rattle.std.specs.Prelude.{◌≡◌, ◌≤◌};
ghost use Rattle.ranges.specs.Range.{ends_of, lows_of, highs_of};

use records::value_at;

// The low (field 2) or high (field 4) ends of the ranges of a file's variables.
fn ends(file: &[u8], vars: usize, field: usize) -> [i16; 12]
    requires most { vars ≤ 12 }
    requires field { field ≤ 8 }
    ensures { result ≡ ends_of file.now vars field }
{
    let mut ends = [0; 12];
    for v in 0..vars {
        ends[v] = value_at(file, 8 * v + field);
    }
    ends
}

// The low ends of the ranges of a file's variables.
pub fn lows(file: &[u8], vars: usize) -> [i16; 12]
    requires { vars ≤ 12 }
    ensures { result ≡ lows_of file.now vars }
{
    ends(file, vars, 2)
}

// The high ends.
pub fn highs(file: &[u8], vars: usize) -> [i16; 12]
    requires { vars ≤ 12 }
    ensures { result ≡ highs_of file.now vars }
{
    ends(file, vars, 4)
}
