// Boxes of states: all states between a low and a high end in each variable. The ranges of a file's variables are such a box too.
#![tactic(auto)]

ghost use Rattle.std.specs.Prelude.{◌≡◌, ◌<◌, pos, get_or, ◌<ℤ◌};
ghost use Rattle.boxes.specs.Half.{wide_of, choice_of, lower_of, upper_of};

use integers::radix::{offset_of, value_at};

#[derive(Clone, Copy)]
pub struct Box {
    pub low: [i16; 12],
    pub high: [i16; 12],
}

// The first variable with more than one value in the box, or 12: the box is then a single state.
pub fn first_wide(b: Box) -> usize
    ensures { result ≡ wide_of b.low b.high }
{
    b.low
        .iter()
        .zip(&b.high)
        .position(|(l, h)| *l < *h)
        .unwrap_or(12)
}

// The variable to halve the box at: the one blamed, where it has more than one value, or another that has.
pub fn choice(b: Box, blamed: usize, other: usize) -> usize
    ensures { result ≡ choice_of b blamed other }
{
    if blamed < 12 && b.low[blamed] < b.high[blamed] {
        blamed
    } else {
        other
    }
}

// The box with variable v up to the middle of its values.
pub fn lower(b: Box, v: usize) -> Box
    requires variable { v < 12 }
    requires wide { get_or b.low v (pos 0) <ℤ get_or b.high v (pos 0) }
    ensures { result ≡ lower_of b v }
{
    let (low, high) = (b.low[v], b.high[v]);
    let mut half = b;
    half.high[v] = value_at(low, high, offset_of(low, high) / 2);
    half
}

// And from behind the middle on.
pub fn upper(b: Box, v: usize) -> Box
    requires variable { v < 12 }
    requires wide { get_or b.low v (pos 0) <ℤ get_or b.high v (pos 0) }
    ensures { result ≡ upper_of b v }
{
    let (low, high) = (b.low[v], b.high[v]);
    let mut half = b;
    half.low[v] = value_at(low, high, offset_of(low, high) / 2 + 1);
    half
}
