// What the expression that a part of the file begins with is worth in a state.
#![tactic(auto)]

pub mod spans;

ghost use Rattle.std.specs.Prelude.{◌≡◌, ◌+◌, ◌*◌, ◌≤◌, length, drop};
ghost use Rattle.records.specs.Record.{value_b};
ghost use Rattle.records.specs.Kind.{number as number_sort, truth as truth_sort};
ghost use Rattle.expressions.specs.Expression.{part_at, compare_of, number, truth, holds_of};
ghost use Rattle.expressions.specs.Spans.{Spans};
ghost use Rattle.expressions.specs.Fits.{Fits};

use integers::bytes::signed16;
use intervals::divide;

// The part behind so many records.
pub fn after(part: &[u8], records: usize) -> &[u8]
    requires { 8 * records ≤ length part.now }
    ensures { result.now ≡ part_at part.now records }
{
    &part[8 * records..]
}

// Equal, less or at most, by the kind.
#[tactic(auto, unfolding(crate::specs::Expression::compare_of))]
fn compare(kind: u8, x: i64, y: i64) -> bool
    ensures { result ≡ compare_of kind x y }
{
    match kind {
        0x27 => x == y,
        0x28 => x < y,
        _ => x <= y,
    }
}

// The constant that begins the part.
pub fn constant(part: &[u8]) -> i64
    requires { 8 ≤ length part.now }
    ensures { result ≡ value_b part.now 0 }
{
    i64::from(signed16(part[2], part[3]))
}

// The number expression that the part begins with, with `levels` nesting levels left. The part begins at record `at` of the file that `spans` has the
// lengths of. An arm for each kind, which becomes a table of jumps: this is where the check spends its time.
#[cycle(number_at_operand_truth_at)]
pub fn number_at(
    part: &[u8],
    spans: &[u16; 4096],
    at: usize,
    state: [i16; 12],
    levels: usize,
) -> i64
    requires fits { Fits levels number_sort part.now state }
    requires room { 8 * at + length part.now ≤ 32768 }
    requires spans { Spans part.now (drop at spans.now) }
    ensures { result ≡ number levels part.now state }
{
    let kind = part[0];
    let below = levels - 1;
    let rest = after(part, 1);
    let first = at + 1;
    match kind {
        0x10 => constant(part),
        0x11 => i64::from(state[part[1] as usize]),
        0x12 => {
            let x = operand(rest, spans, first, state, below);
            let middle = 1 + spans[first] as usize;
            x + operand(after(part, middle), spans, at + middle, state, below)
        }
        0x13 => {
            let x = operand(rest, spans, first, state, below);
            let middle = 1 + spans[first] as usize;
            x - operand(after(part, middle), spans, at + middle, state, below)
        }
        0x14 => {
            let x = operand(rest, spans, first, state, below);
            let middle = 1 + spans[first] as usize;
            x * operand(after(part, middle), spans, at + middle, state, below)
        }
        0x15 => i64::from(truth_at(rest, spans, first, state, below)),
        0x18..=0x19 => {
            let x = operand(rest, spans, first, state, below);
            let middle = 1 + spans[first] as usize;
            divide(kind, x, constant(after(part, middle)))
        }
        _ => 0,
    }
}

// The same. An operand is often a constant or a variable: compiled into its callers, this spares them a call there.
#[cycle(number_at_operand_truth_at)]
fn operand(part: &[u8], spans: &[u16; 4096], at: usize, state: [i16; 12], levels: usize) -> i64
    requires fits { Fits levels number_sort part.now state }
    requires room { 8 * at + length part.now ≤ 32768 }
    requires spans { Spans part.now (drop at spans.now) }
    ensures { result ≡ number levels part.now state }
{
    match part[0] {
        0x10 => constant(part),
        0x11 => i64::from(state[part[1] as usize]),
        _ => number_at(part, spans, at, state, levels),
    }
}

// The truth expression that the part begins with, in the same way. The right operand of a connective that the left one decides is not looked at.
#[cycle(number_at_operand_truth_at)]
pub fn truth_at(
    part: &[u8],
    spans: &[u16; 4096],
    at: usize,
    state: [i16; 12],
    levels: usize,
) -> bool
    requires fits { Fits levels truth_sort part.now state }
    requires room { 8 * at + length part.now ≤ 32768 }
    requires spans { Spans part.now (drop at spans.now) }
    ensures { result ≡ truth levels part.now state }
{
    let kind = part[0];
    let below = levels - 1;
    let rest = after(part, 1);
    let first = at + 1;
    match kind {
        0x20 => true,
        0x22 => !truth_at(rest, spans, first, state, below),
        0x23 => {
            if !truth_at(rest, spans, first, state, below) {
                return false;
            }
            let middle = 1 + spans[first] as usize;
            truth_at(after(part, middle), spans, at + middle, state, below)
        }
        0x24 => {
            if truth_at(rest, spans, first, state, below) {
                return true;
            }
            let middle = 1 + spans[first] as usize;
            truth_at(after(part, middle), spans, at + middle, state, below)
        }
        0x25 => {
            if !truth_at(rest, spans, first, state, below) {
                return true;
            }
            let middle = 1 + spans[first] as usize;
            truth_at(after(part, middle), spans, at + middle, state, below)
        }
        0x26 => {
            let p = truth_at(rest, spans, first, state, below);
            let middle = 1 + spans[first] as usize;
            p == truth_at(after(part, middle), spans, at + middle, state, below)
        }
        0x27..=0x29 => {
            let x = operand(rest, spans, first, state, below);
            let middle = 1 + spans[first] as usize;
            let y = operand(after(part, middle), spans, at + middle, state, below);
            compare(kind, x, y)
        }
        _ => false,
    }
}

// Whether the truth expression at record `at` holds in the state.
pub fn holds(file: &[u8], spans: &[u16; 4096], at: usize, state: [i16; 12]) -> bool
    requires fits { Fits 16 truth_sort (part_at file.now at) state }
    requires spans { Spans file.now spans.now }
    ensures { result ≡ holds_of file.now at state }
{
    truth_at(&file[8 * at..], spans, at, state, 16)
}
