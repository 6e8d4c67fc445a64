// What is known, on a box of states, of the expression that a part of the file begins with.
#![tactic(auto)]

ghost use Rattle.std.specs.Prelude.{◌≡◌, ◌+◌, ◌*◌, ◌≤◌, length, drop};
ghost use Rattle.records.specs.Kind.{number as number_sort, truth as truth_sort};
ghost use Rattle.expressions.specs.Expression.{part_at};
ghost use Rattle.expressions.specs.Spans.{Spans};
ghost use Rattle.expressions.specs.Fits.{Fits};
ghost use Rattle.enclosures.specs.Enclosure.{number_in, truth_in, seen_of};

use boxes::Box;
use domains::extents::{Extent, combine, compare, divide, indicator, spanning};
use domains::seen::{Seen, connect, decides, opposite};
use expressions::{after, constant};
use integers::state::element;

// The number expression that the part begins with, with `levels` nesting levels left. The part begins at record `at` of the file that `spans` has the
// lengths of.
#[cycle(number_in_truth_in)]
pub fn number_in(part: &[u8], spans: &[u16; 4096], at: usize, b: Box, levels: usize) -> Extent
    requires fits { Fits levels number_sort part.now b.low }
    requires room { 8 * at + length part.now ≤ 32768 }
    requires spans { Spans part.now (drop at spans.now) }
    ensures { result ≡ number_in levels part.now b }
{
    let kind = part[0];
    let below = levels - 1;
    let rest = after(part, 1);
    let first = at + 1;
    match kind {
        0x10 => {
            let value = constant(part);
            spanning(value, value, 12)
        }
        0x11 => {
            let a = part[1] as usize;
            spanning(element(b.low, a), element(b.high, a), a)
        }
        0x12..=0x14 => {
            let x = number_in(rest, spans, first, b, below);
            let middle = 1 + spans[first] as usize;
            let y = number_in(after(part, middle), spans, at + middle, b, below);
            combine(kind, x, y)
        }
        0x18..=0x19 => {
            let x = number_in(rest, spans, first, b, below);
            let middle = 1 + spans[first] as usize;
            divide(kind, x, constant(after(part, middle)))
        }
        _ => indicator(truth_in(rest, spans, first, b, below)),
    }
}

// The truth expression that the part begins with, in the same way. The right operand of a connective that the left one decides is not looked at.
#[cycle(number_in_truth_in)]
pub fn truth_in(part: &[u8], spans: &[u16; 4096], at: usize, b: Box, levels: usize) -> Seen
    requires fits { Fits levels truth_sort part.now b.low }
    requires room { 8 * at + length part.now ≤ 32768 }
    requires spans { Spans part.now (drop at spans.now) }
    ensures { result ≡ truth_in levels part.now b }
{
    let kind = part[0];
    let below = levels - 1;
    let rest = after(part, 1);
    let first = at + 1;
    match kind {
        0x20 => Seen::Yes,
        0x21 => Seen::No,
        0x22 => opposite(truth_in(rest, spans, first, b, below)),
        0x23..=0x26 => {
            let p = truth_in(rest, spans, first, b, below);
            if decides(kind, p) {
                return connect(kind, p, p);
            }
            let middle = 1 + spans[first] as usize;
            let q = truth_in(after(part, middle), spans, at + middle, b, below);
            connect(kind, p, q)
        }
        _ => {
            let x = number_in(rest, spans, first, b, below);
            let middle = 1 + spans[first] as usize;
            let y = number_in(after(part, middle), spans, at + middle, b, below);
            compare(kind, x, y)
        }
    }
}

// What is seen of the truth expression at record `at`.
#[tactic(auto, unfolding(crate::specs::Enclosure::seen_of))]
pub fn seen_in(file: &[u8], spans: &[u16; 4096], at: usize, b: Box) -> Seen
    requires fits { Fits 16 truth_sort (part_at file.now at) b.low }
    requires spans { Spans file.now spans.now }
    ensures { result ≡ seen_of file.now at b }
{
    truth_in(after(file, at), spans, at, b, 16)
}
