// Records of 8 bytes, and their fields.
#![tactic(auto)]

pub mod kinds;
pub mod walk;

ghost use Rattle.std.specs.Prelude.{◌≡◌, ◌+◌, ◌≤◌, ◌<◌, ◌^◌, length, get_or};
ghost use Rattle.records.specs.Record.{word, value, zeros_of, same_bytes, kind_is};

// Byte i, or 0 past the file's end.
pub fn byte_at(file: &[u8], i: usize) -> u8
    ensures { result ≡ get_or file.now i 0 }
{
    if i < file.len() { file[i] } else { 0 }
}

// The signed 16-bit number at byte i, low byte first.
pub fn value_at(file: &[u8], i: usize) -> i16
    requires { i < 2 ^ 63 }
    ensures { result ≡ value file.now i }
{
    integers::bytes::signed16(byte_at(file, i), byte_at(file, i + 1))
}

// The same number, wide enough to count with.
pub fn wide_value_at(file: &[u8], i: usize) -> i64
    requires { i < 2 ^ 63 }
    ensures { result ≡ value file.now i }
{
    i64::from(value_at(file, i))
}

// The 16 bits at byte i, low byte first.
pub fn word_at(file: &[u8], i: usize) -> usize
    requires { i + 2 ≤ length file.now }
    ensures { (result ≡ word file.now i) × (result < 65536) }
{
    usize::from(u16::from_le_bytes([file[i], file[i + 1]]))
}

// Whether the n bytes from `from` on are all zero.
pub fn zeros(file: &[u8], from: usize, n: usize) -> bool
    requires { from + n ≤ length file.now }
    ensures { result ≡ zeros_of file.now from n }
{
    (from..from + n).all(|at| file[at] == 0)
}

// Whether the n bytes from i on are those from j on. The laws that the proof may use serve a comparison in parts too.
#[tactic(auto, using(crate::proofs::Steps::Record::same_parts, crate::proofs::Laws::Record::bytes_joined))]
pub fn same_bytes(file: &[u8], i: usize, j: usize, n: usize) -> bool
    requires { (i + n ≤ length file.now) × (j + n ≤ length file.now) }
    ensures { result ≡ same_bytes file.now i j n }
{
    file[i..i + n] == file[j..j + n]
}

// Whether there is a record at `at`, of this kind.
pub fn kind_is(file: &[u8], kind: u8, at: usize) -> bool
    ensures { result ≡ kind_is file.now kind at }
{
    at < file.len() / 8 && file[8 * at] == kind
}
