// A loop over the states, which on its way asks boxes which states it may skip: after one state by 64 of them at most, after 64 states by 64 times as
// many, and so on up to what is fair. So a test that fails at one of the first states costs little, and so does one that boxes don't decide.
ghost use Rattle.std.specs.Prelude.{◌≡◌, ◌≤◌};
ghost use Rattle.states.specs.Ranges.{Ranges};
ghost use Rattle.states.specs.Number.{count_of};
ghost use Rattle.expressions.specs.Spans.{Spans};
ghost use Rattle.diagrams.specs.Diagram.{Loaded};
ghost use Rattle.testing.specs.Testing.{TestFits};
ghost use Rattle.searching.specs.Scan.{ask_of, onward_of, failing_of};

use crate::budget::budget;
use crate::{Search, Skipped, skip};
use boxes::Box;
use diagrams::Diagram;
use expressions::holds;
use states::advance;
use testing::Test;
use testing::tests::concludes;

// More than there are states: from this number on boxes are not asked. Not an Option, which costs the loops over the states a branch more at each.
const UNASKED: usize = 1048577;

// How far a loop over the states has come: to this state, which has this number; boxes are asked from that number on.
#[derive(Clone, Copy)]
pub struct Scan {
    pub state: [i16; 12],
    pub number: usize,
    pub ask: usize,
}

// From which number on boxes are asked first.
#[tactic(auto, unfolding(crate::specs::Scan::ask_of))]
pub fn first_ask(by_boxes: bool) -> usize
    ensures { result ≡ ask_of by_boxes }
{
    if by_boxes { 1 } else { UNASKED }
}

// Asks boxes: as far as before, or further on.
#[tactic(auto, unfolding(crate::specs::Scan::onward_of))]
pub fn onward(file: &[u8], spans: &[u16; 4096], search: Search, states: usize, from: Scan) -> Scan
    requires spans { Spans file.now spans.now }
    requires fits { TestFits search.ranges.low search.ranges.high file.now search.test }
    requires ranges { Ranges search.ranges.low search.ranges.high }
    requires most { count_of search.ranges.low search.ranges.high ≤ 1048576 }
    requires asked { from.ask ≤ 1048576 }
    ensures { result ≡ onward_of file.now spans.now search states from }
{
    let Scan { state, number, ask } = from;
    let ask = ask * 64;
    let boxes = budget(spans, search.test, states, ask);
    let here = Skipped { state, number };
    let Skipped { state, number } = skip(file, spans, search, states, here, boxes);
    Scan {
        state,
        number,
        ask: if boxes < ask { UNASKED } else { ask },
    }
}

// The number of the first state at which a test fails, or how many states there are.
pub fn first_failing(
    file: &[u8],
    diagram: Diagram,
    spans: &[u16; 4096],
    test: Test,
    by_boxes: bool,
) -> usize
    requires loaded { Loaded file.now diagram }
    requires spans { Spans file.now spans.now }
    requires fits { TestFits diagram.low diagram.high file.now test }
    ensures { result ≡ failing_of file.now diagram test }
{
    let Diagram {
        low,
        high,
        states,
        ..
    } = diagram;
    let search = Search {
        ranges: Box { low, high },
        test,
    };
    let mut ask = first_ask(by_boxes);
    let mut state = low;
    let mut n = 0;
    // Boxes skip states, so no range counts them.
    while n < states {
        // Worked out before the test, which then needn't wait for it.
        let next = advance(low, high, diagram.vars, state);
        if holds(file, spans, test.premise, state)
            && !concludes(file, spans, low, high, test, state)
        {
            return n;
        }
        state = next;
        n += 1;
        if ask <= n {
            let from = Scan {
                state,
                number: n,
                ask,
            };
            let to = onward(file, spans, search, states, from);
            state = to.state;
            n = to.number;
            ask = to.ask;
        }
    }
    states
}
