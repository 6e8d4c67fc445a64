// The verdict on a file: the lowest broken condition with the lowest state that breaks it; and what a single test answers.
#![tactic(auto)]

ghost use Rattle.std.specs.Prelude.{◌≡◌, ◌≤◌, ◌<◌, ◌^◌, Err};
ghost use Rattle.shapes.specs.Refusal.{refused_place};
ghost use Rattle.diagrams.specs.Diagram.{Loaded};
ghost use Rattle.conditions.specs.Condition.{node_number, transition_number};
ghost use Rattle.expressions.specs.Spans.{Spans};
ghost use Rattle.diagrams.specs.Start.{and_start};
ghost use Rattle.verdicts.specs.Verdict.{unnamed_of, named_of, judged_of, refused_of, verdict_of, single_judged, single_of};

use boxes::Box;
use conditions::{Condition, condition_at, node_number, refusal_number, total, transition_number};
use diagrams::{Diagram, diagram_of, find};
use expressions::holds;
use expressions::spans::spans_of;
use report::Verdict;
use searching::Search;
use searching::scan::{Scan, first_ask, onward};
use searching::start::starts;
use shapes::Refusal;
use states::{advance, state_of};
use testing::test_of;
use testing::tests::{concludes, passes};

// A verdict that names no condition.
pub fn unnamed(number: u8, at: u32, tests: u64) -> Verdict
    ensures { result ≡ unnamed_of number at tests }
{
    Verdict {
        number,
        node: 255,
        transition: 255,
        at,
        values: [0; 12],
        tests,
    }
}

// The verdict on a file that is refused before its conditions are tested.
pub fn refused(refusal: Refusal) -> Verdict
    requires { refused_place refusal < 2 ^ 32 }
    ensures { result ≡ refused_of refusal }
{
    unnamed(refusal.number(), refusal.place() as u32, 0)
}

// The verdict that names a broken condition, its number, and the state that breaks it.
fn named(condition: Condition, number: u32, state: [i16; 12], tests: u64) -> Verdict
    requires { (node_number condition ≤ 255) × (transition_number condition ≤ 255) }
    ensures { result ≡ named_of condition number state tests }
{
    Verdict {
        number: refusal_number(condition),
        node: node_number(condition),
        transition: transition_number(condition),
        at: number,
        values: state,
        tests,
    }
}

// The verdict on a readable file, by one condition after the other up to the first break. Each is prepared once, then tested at one state after the
// other. By boxes, whole boxes of states are asked on the way which states may be skipped.
fn first_break(file: &[u8], diagram: Diagram, spans: &[u16; 4096], by_boxes: bool) -> Verdict
    requires loaded { Loaded file.now diagram }
    requires spans { Spans file.now spans.now }
    ensures { result ≡ judged_of file.now diagram }
{
    let low = diagram.low;
    let high = diagram.high;
    let states = diagram.states;
    let total = total(file, diagram);
    let ranges = Box { low, high };
    let mut number: usize = 0;
    let mut state = low;
    let mut n: usize = 0;
    // Labelled loops, left at the first break (DECISIONS, forms): the number at which they are left is needed, and boxes skip states.
    'conditions: while number < total {
        let condition = condition_at(file, diagram, number);
        let test = test_of(file, diagram, condition);
        let premise = test.premise;
        let search = Search { ranges, test };
        let mut ask = first_ask(by_boxes);
        state = low;
        n = 0;
        'states: while n < states {
            // Worked out before the test, which then needn't wait for it.
            let next = advance(low, high, diagram.vars, state);
            if holds(file, spans, premise, state) {
                if !concludes(file, spans, low, high, test, state) {
                    break 'states;
                }
            }
            state = next;
            n += 1;
            if ask <= n {
                let from = Scan {
                    state,
                    number: n,
                    ask,
                };
                let to = onward(file, spans, search, states, from);
                state = to.state;
                n = to.number;
                ask = to.ask;
            }
        }
        if n < states {
            break 'conditions;
        }
        number += 1;
    }
    if number < total {
        let broken = condition_at(file, diagram, number);
        return named(
            broken,
            number as u32,
            state,
            (number * states + n + 1) as u64,
        );
    }
    unnamed(0, total as u32, (total * states) as u64)
}

// The verdict on a file that reading finds the parts of.
fn judge(file: &[u8], diagram: Diagram, by_boxes: bool) -> Verdict
    requires { Loaded file.now diagram }
    ensures { result ≡ and_start refused_of file.now diagram (judged_of file.now diagram) }
{
    let spans = spans_of(file);
    if !starts(file, diagram, &spans, by_boxes) {
        return refused(Refusal::NoStart);
    }
    first_break(file, diagram, &spans, by_boxes)
}

// The verdict on a file, the same with boxes and by the loops alone.
#[tactic(auto, unfolding(crate::specs::Verdict::verdict_of))]
pub fn verdict(file: &[u8], by_boxes: bool) -> Verdict
    ensures { result ≡ verdict_of file.now }
{
    match find(file) {
        Ok(outline) => judge(file, diagram_of(file, outline), by_boxes),
        Err(refusal) => refused(refusal),
    }
}

// The single test of a readable file.
fn tested(
    file: &[u8],
    diagram: Diagram,
    spans: &[u16; 4096],
    condition: usize,
    state: usize,
) -> Result<bool, Refusal>
    requires loaded { Loaded file.now diagram }
    requires spans { Spans file.now spans.now }
    ensures { result ≡ single_judged file.now diagram condition state }
{
    if total(file, diagram) <= condition {
        return Err(Refusal::ConditionNumber);
    }
    if diagram.states <= state {
        return Err(Refusal::StateNumber);
    }
    let low = diagram.low;
    let high = diagram.high;
    let test = test_of(file, diagram, condition_at(file, diagram, condition));
    let s = state_of(low, high, state);
    Ok(passes(file, spans, low, high, test, s))
}

// The single test of a file that reading finds the parts of.
fn try_single(
    file: &[u8],
    diagram: Diagram,
    condition: usize,
    state: usize,
) -> Result<bool, Refusal>
    requires { Loaded file.now diagram }
    ensures { result ≡ and_start Err file.now diagram (single_judged file.now diagram condition state) }
{
    let spans = spans_of(file);
    if !starts(file, diagram, &spans, true) {
        return Err(Refusal::NoStart);
    }
    tested(file, diagram, &spans, condition, state)
}

// The single test of a condition at a state, by their numbers: whether it holds there.
#[tactic(auto, unfolding(crate::specs::Verdict::single_of))]
pub fn answer(file: &[u8], condition: usize, state: usize) -> Result<bool, Refusal>
    ensures { result ≡ single_of file.now condition state }
{
    let outline = find(file)?;
    try_single(file, diagram_of(file, outline), condition, state)
}
