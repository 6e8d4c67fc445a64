// Whether a condition holds at every state, by whole boxes of them: a box for which that is not seen at once is halved, a single state is tested.
#![tactic(auto)]

pub mod budget;
pub mod scan;
pub mod start;

ghost use Rattle.std.specs.Prelude.{◌≡◌, ◌≤◌};
ghost use Rattle.expressions.specs.Spans.{Spans};
ghost use Rattle.states.specs.Ranges.{Ranges};
ghost use Rattle.states.specs.Number.{count_of};
ghost use Rattle.testing.specs.Testing.{TestFits};
ghost use Rattle.boxes.specs.Box.{Part};
ghost use Rattle.searching.specs.Search.{decide_of, narrow_of, skip_of};

use boxes::{Box, choice, first_wide, lower, upper};
use domains::seen::Seen;
use states::number_of;
use testing::Test;
use testing::tests::{passes, passes_in};

// 2^20 states are halved so often at most: each of twelve variables once more than its share of the 20.
const HALVINGS: usize = 32;

// What is searched for a state that breaks it: the ranges of the variables, and a condition prepared for its tests.
#[derive(Clone, Copy)]
pub struct Search {
    pub ranges: Box,
    pub test: Test,
}

// Whether the condition is seen to hold at every state of a box, and how many boxes may still be looked at.
#[derive(Clone, Copy)]
pub struct Decided {
    pub sure: bool,
    pub left: usize,
}

// A state, and its number: the condition holds at every state before it. Where it holds at all of them, the number is how many there are.
#[derive(Clone, Copy)]
pub struct Skipped {
    pub state: [i16; 12],
    pub number: usize,
}

// Sure only where the condition holds at every state of the box. The box is halved `depth` times at most, and at most `budget` boxes are looked at.
#[tactic(auto, unfolding(crate::specs::Search::decide_of, crate::specs::Search::decided_by, crate::specs::Search::halves_of))]
fn decide(
    file: &[u8],
    spans: &[u16; 4096],
    search: Search,
    b: Box,
    depth: usize,
    budget: usize,
) -> Decided
    requires spans { Spans file.now spans.now }
    requires fits { TestFits search.ranges.low search.ranges.high file.now search.test }
    requires part { Part search.ranges b }
    ensures { result ≡ decide_of depth file.now search b budget }
{
    if depth == 0 || budget == 0 {
        return Decided {
            sure: false,
            left: budget,
        };
    }
    let left = budget - 1;
    let Search { ranges, test } = search;
    let wide = first_wide(b);
    if wide >= 12 {
        let sure = passes(file, spans, ranges.low, ranges.high, test, b.low);
        return Decided { sure, left };
    }
    match passes_in(file, spans, ranges, test, b) {
        Seen::Yes => Decided { sure: true, left },
        Seen::No => Decided { sure: false, left },
        Seen::Unsure(blamed) => {
            let v = choice(b, blamed, wide);
            let first = decide(file, spans, search, lower(b, v), depth - 1, left);
            if !first.sure {
                return first;
            }
            decide(file, spans, search, upper(b, v), depth - 1, first.left)
        }
    }
}

// A state of the box, where the condition holds at every state of the box before it: the box is halved at its first variable with more than one value,
// and its lower half left behind where the condition holds at all of it.
#[tactic(auto, unfolding(crate::specs::Search::narrow_of))]
fn narrow(
    file: &[u8],
    spans: &[u16; 4096],
    search: Search,
    b: Box,
    depth: usize,
    budget: usize,
) -> [i16; 12]
    requires spans { Spans file.now spans.now }
    requires fits { TestFits search.ranges.low search.ranges.high file.now search.test }
    requires part { Part search.ranges b }
    ensures { result ≡ narrow_of depth file.now search b budget }
{
    let wide = first_wide(b);
    if depth == 0 || wide >= 12 {
        return b.low;
    }
    let half = lower(b, wide);
    let found = decide(file, spans, search, half, HALVINGS, budget);
    if found.sure {
        return narrow(file, spans, search, upper(b, wide), depth - 1, found.left);
    }
    narrow(file, spans, search, half, depth - 1, found.left)
}

// As `from`, or further on, by looking at so many boxes at most.
#[tactic(auto, unfolding(crate::specs::Search::skip_of))]
pub fn skip(
    file: &[u8],
    spans: &[u16; 4096],
    search: Search,
    states: usize,
    from: Skipped,
    budget: usize,
) -> Skipped
    requires spans { Spans file.now spans.now }
    requires fits { TestFits search.ranges.low search.ranges.high file.now search.test }
    requires ranges { Ranges search.ranges.low search.ranges.high }
    requires most { count_of search.ranges.low search.ranges.high ≤ 1048576 }
    ensures { result ≡ skip_of file.now search states from budget }
{
    if budget == 0 {
        return from;
    }
    let Box { low, high } = search.ranges;
    let whole = decide(file, spans, search, search.ranges, HALVINGS, budget);
    if whole.sure {
        return Skipped {
            state: low,
            number: states,
        };
    }
    let state = narrow(file, spans, search, search.ranges, HALVINGS, whole.left);
    let number = number_of(low, high, state);
    if number > from.number {
        Skipped { state, number }
    } else {
        from
    }
}
