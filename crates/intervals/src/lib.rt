// The interval of every number expression, from the variables' ranges: refusal 8.
#![tactic(auto)]

ghost use Rattle.std.specs.Prelude.{◌≡◌, ◌+◌, ◌*◌, ◌≤◌, pos, length, ◌≤ℤ◌};
ghost use Rattle.integers.specs.Interval.{over_ends};
ghost use Rattle.integers.specs.Inside.{Bounded};
ghost use Rattle.intervals.specs.Interval.{leaf_of, combine, divide, divided_by, join_of, own_of, analysis_of, intervals_of};

use integers::Interval;
use integers::floor::{quotient, remainder};
use records::kinds::{Operands, signature_at, signature_of};
use records::wide_value_at;
use shapes::Refusal;

// The interval of an expression, and the record behind it.
#[derive(Clone, Copy)]
pub struct Analysis {
    pub interval: Interval,
    pub end: usize,
}

// The interval of a record with no operand.
#[tactic(auto, unfolding(crate::specs::Interval::leaf_of))]
fn leaf(file: &[u8], at: usize) -> Interval
    requires { 8 * at + 8 ≤ length file.now }
    ensures { result ≡ leaf_of file.now at }
{
    match file[8 * at] {
        0x10 => {
            let value = wide_value_at(file, 8 * at + 2);
            Interval {
                low: value,
                high: value,
            }
        }
        0x11 => {
            let variable = 8 * usize::from(file[8 * at + 1]);
            Interval {
                low: wide_value_at(file, variable + 2),
                high: wide_value_at(file, variable + 4),
            }
        }
        _ => Interval { low: 0, high: 1 },
    }
}

// Sum, difference or product of two intervals.
#[tactic(auto, unfolding(crate::specs::Interval::combine))]
pub fn combined(kind: u8, i: Interval, j: Interval) -> Interval
    requires left { Bounded i }
    requires right { Bounded j }
    ensures { result ≡ over_ends (combine kind) i j }
{
    match kind {
        0x12 => integers::intervals::sum(i, j),
        0x13 => integers::intervals::difference(i, j),
        _ => integers::intervals::product(i, j),
    }
}

// Quotient or remainder of n by d.
#[tactic(auto, unfolding(crate::specs::Interval::divide))]
pub fn divide(kind: u8, n: i64, d: i64) -> i64
    requires { pos 1 ≤ℤ d }
    ensures { result ≡ divide kind n d }
{
    if kind == 0x18 {
        quotient(n, d)
    } else {
        remainder(n, d)
    }
}

// The interval of a quotient or remainder, by its first operand's and the divisor.
#[tactic(auto, unfolding(crate::specs::Interval::divided_by))]
fn divided(kind: u8, i: Interval, d: i64) -> Interval
    requires { pos 1 ≤ℤ d }
    ensures { result ≡ divided_by kind i d }
{
    if kind == 0x18 {
        Interval {
            low: divide(0x18, i.low, d),
            high: divide(0x18, i.high, d),
        }
    } else {
        Interval {
            low: 0,
            high: d - 1,
        }
    }
}

// The interval of a record with two operands.
fn join(kind: u8, i: Interval, j: Interval) -> Interval
    requires left { Bounded i }
    requires right { Bounded j }
    ensures { result ≡ join_of kind i j }
{
    match kind {
        0x12..=0x14 => combined(kind, i, j),
        0x18..=0x19 => divided(kind, i, j.low.max(1)),
        _ => Interval { low: 0, high: 1 },
    }
}

// A record's own interval, once its operands are judged.
#[tactic(auto, unfolding(crate::specs::Interval::own_of))]
fn own(interval: Interval, end: usize, at: usize) -> Result<Analysis, Refusal>
    ensures { result ≡ own_of interval end at }
{
    if integers::intervals::in_bounds(interval) {
        Ok(Analysis { interval, end })
    } else {
        Err(Refusal::Interval(at))
    }
}

// Analyses the expression at record `at`: operands first, left before right.
fn analyse(file: &[u8], levels: usize, at: usize) -> Result<Analysis, Refusal>
    ensures { result ≡ analysis_of file.now levels at }
{
    if levels == 0 || file.len() / 8 <= at {
        return Err(Refusal::Interval(at));
    }
    let kind = file[8 * at];
    match signature_of(kind).operands {
        Operands::Zero => own(leaf(file, at), at + 1, at),
        Operands::One(_) => {
            let truth = analyse(file, levels - 1, at + 1)?;
            own(Interval { low: 0, high: 1 }, truth.end, at)
        }
        Operands::Two(_, _) => {
            let left = analyse(file, levels - 1, at + 1)?;
            let right = analyse(file, levels - 1, left.end)?;
            own(join(kind, left.interval, right.interval), right.end, at)
        }
    }
}

// Analyses every expression of the file, in file order: refusal 8 at the first record whose own interval is out of bounds.
pub fn intervals(file: &[u8]) -> Result<usize, Refusal>
    ensures { result ≡ intervals_of file.now }
{
    let records = file.len() / 8;
    let mut at: usize = 0;
    // An expression has several records, so no range counts them.
    while at < records {
        at = if signature_at(file, at).sort.is_none() {
            at + 1
        } else {
            analyse(file, 16, at)?.end
        };
    }
    Ok(at)
}
