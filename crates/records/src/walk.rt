// The walk of an expression: where it ends, and the refusals 3, 4, 5 and 19 of its records.
ghost use Rattle.std.specs.Prelude.{◌≡◌, ◌+◌, ◌*◌, ◌≤◌, length};
ghost use Rattle.records.specs.Walk.{expression_fields, suits, in_sequence, walk_of, truth_of};
ghost use Rattle.records.specs.Asked.{bare_of, asked_of};

use crate::kinds::{Operands, Sort, signature_at};
use crate::{value_at, zeros};
use shapes::Refusal;

// Whether an expression's record at `at` has only the field that its kind names: a constant b, a variable a.
fn expression_fields(file: &[u8], at: usize, vars: usize) -> bool
    requires { 8 * at + 8 ≤ length file.now }
    ensures { result ≡ expression_fields file.now vars at }
{
    let base = 8 * at;
    match file[base] {
        0x10 => zeros(file, base + 1, 1) && zeros(file, base + 4, 4),
        0x11 => usize::from(file[base + 1]) < vars && zeros(file, base + 2, 6),
        _ => zeros(file, base + 1, 7),
    }
}

// Whether, where a divisor is asked, the record at `at` is a constant above 0.
fn suits(file: &[u8], at: usize, want: Sort) -> bool
    requires { 8 * at + 8 ≤ length file.now }
    ensures { result ≡ suits file.now want at }
{
    match want {
        Sort::Divisor => file[8 * at] == 0x10 && 0 < value_at(file, 8 * at + 2),
        Sort::Number | Sort::Truth => true,
    }
}

// Walks the expression asked for as `want`, a sort or a divisor, at record `at`, with `levels` nesting levels left: to the record behind it.
pub fn walk_sort(
    file: &[u8],
    at: usize,
    want: Sort,
    vars: usize,
    levels: usize,
) -> Result<usize, Refusal>
    ensures { result ≡ walk_of file.now vars levels want at }
{
    if file.len() / 8 <= at {
        return Err(Refusal::Kind(at));
    }
    let signature = signature_at(file, at);
    if signature.sort != Some(want.stands()) {
        return Err(Refusal::Kind(at));
    }
    if !expression_fields(file, at, vars) {
        return Err(Refusal::Field(at));
    }
    if levels == 0 {
        return Err(Refusal::Limit(at));
    }
    if !suits(file, at, want) {
        return Err(Refusal::Divisor(at));
    }
    match signature.operands {
        Operands::Zero => Ok(at + 1),
        Operands::One(first) => walk_sort(file, at + 1, first, vars, levels - 1),
        Operands::Two(first, second) => {
            let next = walk_sort(file, at + 1, first, vars, levels - 1)?;
            walk_sort(file, next, second, vars, levels - 1)
        }
    }
}

// The record at `at`, where it begins no expression: to the record behind it.
#[tactic(auto, unfolding(crate::specs::Asked::bare_of))]
fn bare(file: &[u8], at: usize, vars: usize, levels: usize) -> Result<usize, Refusal>
    ensures { result ≡ bare_of file.now vars levels at }
{
    if file.len() / 8 <= at || signature_at(file, at).sort.is_some() {
        Err(Refusal::Kind(at))
    } else if !expression_fields(file, at, vars) {
        Err(Refusal::Field(at))
    } else if levels == 0 {
        Err(Refusal::Limit(at))
    } else {
        Ok(at + 1)
    }
}

// The same walk, what is asked for given by number: 1 a number, 2 a truth, 3 a divisor; 0 a record that begins no expression. No record stands for
// another number.
#[tactic(auto, unfolding(crate::specs::Asked::asked_of))]
pub fn walk(file: &[u8], at: usize, want: u8, vars: usize, levels: usize) -> Result<usize, Refusal>
    ensures { result ≡ asked_of file.now vars levels want at }
{
    match want {
        0 => bare(file, at, vars, levels),
        1 => walk_sort(file, at, Sort::Number, vars, levels),
        2 => walk_sort(file, at, Sort::Truth, vars, levels),
        3 => walk_sort(file, at, Sort::Divisor, vars, levels),
        _ => Err(Refusal::Kind(at)),
    }
}

// n expressions of a sort, one behind the other, from record `at` on: to the record behind them.
pub fn sequence(file: &[u8], sort: Sort, vars: usize, n: usize, at: usize) -> Result<usize, Refusal>
    ensures { result ≡ in_sequence (walk_of file.now vars 16 sort) n at }
{
    let mut next = at;
    for _ in 0..n {
        next = walk_sort(file, next, sort, vars, 16)?;
    }
    Ok(next)
}

// n truth expressions.
pub fn truths(file: &[u8], vars: usize, n: usize, at: usize) -> Result<usize, Refusal>
    ensures { result ≡ in_sequence (truth_of file.now vars) n at }
{
    sequence(file, Sort::Truth, vars, n, at)
}
