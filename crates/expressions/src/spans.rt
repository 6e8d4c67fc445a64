// How many records each expression of a file has, worked out once: so an evaluator finds a second operand without passing through the first.
ghost use Rattle.std.specs.Prelude.{◌≡◌, ◌+◌, ◌≤◌, length, get_or};
ghost use Rattle.expressions.specs.Spans.{spans_of};

use records::kinds::signature_at;

// The record behind the operand that begins at `at`, by its entry in the table; `at` itself where the table ends before it.
fn end_of(spans: &[u16], at: usize) -> usize
    requires { at ≤ 4096 }
    ensures { result ≡ at + get_or spans.now at 0 }
{
    at + spans.get(at).map_or(0, |n| *n as usize)
}

// The table of a file's expressions, by the record that each begins at, and zeros beyond. From the last record back, an expression has one record
// and then those of its operands, one behind the other. Where no expression begins, the entry is of no use.
pub fn spans_of(file: &[u8]) -> [u16; 4096]
    requires { length file.now ≤ 32768 }
    ensures { result ≡ spans_of file.now }
{
    let mut spans = [0u16; 4096];
    for at in (0..file.len() / 8).rev() {
        let operands = signature_at(file, at).operands.count();
        let mut behind = at + 1;
        for _ in 0..operands {
            behind = end_of(&spans, behind);
        }
        spans[at] = (behind - at) as u16;
    }
    spans
}
