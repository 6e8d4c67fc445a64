// What is known of a number on a box of states: the interval that it lies in, and a variable to blame for the width.
ghost use Rattle.std.specs.Prelude.{◌≡◌, pos, ◌-ℤ◌, ◌≤ℤ◌};
ghost use Rattle.integers.specs.Inside.{Bounded};
ghost use Rattle.domains.specs.Extent.{cut_of, extent_of, wider_of, combine_in, rises_of, divide_in, indicator_in, at_most_in, compare_in};

use crate::seen::{Seen, both, opposite};
use integers::Interval;
use intervals::combined;

#[derive(Clone, Copy)]
pub struct Extent {
    pub span: Interval,
    pub widest: usize,
}

// The number, or the end of the range from l to h that it lies beyond. Not clamp, which would require l at most h.
#[tactic(auto, unfolding(crate::specs::Extent::cut_of))]
pub fn cut(l: i64, h: i64, x: i64) -> i64
    ensures { result ≡ cut_of l h x }
{
    if x < l { l } else { x.min(h) }
}

// From low to high, as far as that lies in -1,000,000..1,000,000.
#[tactic(auto, unfolding(crate::specs::Extent::extent_of))]
pub fn spanning(low: i64, high: i64, widest: usize) -> Extent
    ensures { result ≡ extent_of low high widest }
{
    let span = Interval {
        low: cut(-1000000, 1000000, low),
        high: cut(-1000000, 1000000, high),
    };
    Extent { span, widest }
}

// How far apart the ends are.
fn width(i: Interval) -> i64
    requires { Bounded i }
    ensures { result ≡ i.high -ℤ i.low }
{
    i.high - i.low
}

// The variable to blame for the wider of two.
#[tactic(auto, unfolding(crate::specs::Extent::wider_of))]
fn wider(x: Extent, y: Extent) -> usize
    requires left { Bounded x.span }
    requires right { Bounded y.span }
    ensures { result ≡ wider_of x y }
{
    if width(y.span) <= width(x.span) {
        x.widest
    } else {
        y.widest
    }
}

// Sum, difference or product, by the kind.
#[tactic(auto, unfolding(crate::specs::Extent::combine_in))]
pub fn combine(kind: u8, x: Extent, y: Extent) -> Extent
    requires left { Bounded x.span }
    requires right { Bounded y.span }
    ensures { result ≡ combine_in kind x y }
{
    let k = combined(kind, x.span, y.span);
    spanning(k.low, k.high, wider(x, y))
}

// Whether a quotient, or a remainder, rises between low and high: a remainder does where both have one quotient.
#[tactic(auto, unfolding(crate::specs::Extent::rises_of))]
fn rises(kind: u8, low: i64, high: i64, d: i64) -> bool
    requires { pos 1 ≤ℤ d }
    ensures { result ≡ rises_of kind low high d }
{
    kind == 0x18 || intervals::divide(0x18, low, d) == intervals::divide(0x18, high, d)
}

// Quotient or remainder by d, by the kind.
#[tactic(auto, unfolding(crate::specs::Extent::divide_in))]
pub fn divide(kind: u8, x: Extent, d: i64) -> Extent
    requires { pos 1 ≤ℤ d }
    ensures { result ≡ divide_in kind x d }
{
    let Interval { low, high } = x.span;
    if rises(kind, low, high, d) {
        spanning(
            intervals::divide(kind, low, d),
            intervals::divide(kind, high, d),
            x.widest,
        )
    } else {
        spanning(0, d - 1, x.widest)
    }
}

// 1 if true, else 0.
#[tactic(auto, unfolding(crate::specs::Extent::indicator_in))]
pub fn indicator(p: Seen) -> Extent
    ensures { result ≡ indicator_in p }
{
    match p {
        Seen::Yes => spanning(1, 1, 12),
        Seen::No => spanning(0, 0, 12),
        Seen::Unsure(v) => spanning(0, 1, v),
    }
}

// Whether x is at most y.
#[tactic(auto, unfolding(crate::specs::Extent::at_most_in))]
pub fn at_most(x: Extent, y: Extent) -> Seen
    requires left { Bounded x.span }
    requires right { Bounded y.span }
    ensures { result ≡ at_most_in x y }
{
    if x.span.high <= y.span.low {
        Seen::Yes
    } else if y.span.high < x.span.low {
        Seen::No
    } else {
        Seen::Unsure(wider(x, y))
    }
}

// Equal, less or at most, by the kind.
#[tactic(auto, unfolding(crate::specs::Extent::compare_in))]
pub fn compare(kind: u8, x: Extent, y: Extent) -> Seen
    requires left { Bounded x.span }
    requires right { Bounded y.span }
    ensures { result ≡ compare_in kind x y }
{
    match kind {
        0x27 => both(at_most(x, y), at_most(y, x)),
        0x28 => opposite(at_most(y, x)),
        _ => at_most(x, y),
    }
}
