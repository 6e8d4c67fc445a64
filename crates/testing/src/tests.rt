// The test of a prepared condition, at a state and on a box of states. What is looked at for a state and for a box stands side by side.
ghost use Rattle.std.specs.Prelude.{◌≡◌, List, ℕ, ◌≤◌, ◌<◌, get_or, ℤ};
ghost use Rattle.expressions.specs.Spans.{Spans};
ghost use Rattle.expressions.specs.Fits.{TruthFits};
ghost use Rattle.truths.specs.Listed.{all_pass};
ghost use Rattle.states.specs.State.{Within};
ghost use Rattle.states.specs.Ranges.{Ranges};
ghost use Rattle.states.specs.Number.{states_between};
ghost use Rattle.boxes.specs.Box.{Part};
ghost use Rattle.testing.specs.Testing.{listed, some_holds, concludes_of, passes_of, TestFits, some_in, concludes_in, passes_in};

use crate::{Conclusion, Targets, Test};
use boxes::Box;
use domains::seen::{Seen, both, either, implied, implies, never, sure};
use enclosures::seen_in;
use evaluating::{Stepped, step};
use expressions::holds;
use states::{advance, is_last};
use successors::next_in;

// Whether a truth at one of the places holds.
fn some_holds(file: &[u8], spans: &[u16; 4096], targets: &Targets, state: [i16; 12]) -> bool
    requires spans { Spans file.now spans.now }
    requires most { targets.now.count ≤ 32 }
    requires fits { (i : ℕ) → i < targets.now.count → TruthFits file.now (get_or targets.now.places i 0) state }
    ensures { result ≡ some_holds file.now (listed targets.now) state }
{
    for &at in &targets.places[..targets.count] {
        if holds(file, spans, at as usize, state) {
            return true;
        }
    }
    false
}

// Whether at each state from `low` to `high` a truth at one of the places holds.
fn all_hold(
    file: &[u8],
    spans: &[u16; 4096],
    targets: &Targets,
    low: [i16; 12],
    high: [i16; 12],
) -> bool
    requires spans { Spans file.now spans.now }
    requires most { targets.now.count ≤ 32 }
    requires ranges { Ranges low high }
    requires fits { (state : List ℤ) → Within low high state → (i : ℕ) → i < targets.now.count → TruthFits file.now (get_or targets.now.places i 0) state }
    ensures { result ≡ all_pass (some_holds file.now (listed targets.now)) (states_between low high) }
{
    let mut state = low;
    // From one state to the next, and none is counted.
    while some_holds(file, spans, targets, state) {
        if is_last(high, state) {
            return true;
        }
        let next = advance(low, high, 12, state);
        state = next;
    }
    false
}

// What is seen of one of the truths at the places. Those behind are not looked at where it is sure.
fn some_in(file: &[u8], spans: &[u16; 4096], targets: &Targets, b: Box) -> Seen
    requires spans { Spans file.now spans.now }
    requires most { targets.now.count ≤ 32 }
    requires fits { (i : ℕ) → i < targets.now.count → TruthFits file.now (get_or targets.now.places i 0) b.low }
    ensures { result ≡ some_in file.now (listed targets.now) b }
{
    let mut seen = Seen::No;
    for &at in &targets.places[..targets.count] {
        seen = either(seen, seen_in(file, spans, at as usize, b));
        if sure(seen) {
            return seen;
        }
    }
    seen
}

// Whether what a condition's premise must imply is true at a state.
#[tactic(auto, unfolding(crate::specs::Testing::concludes_of))]
pub fn concludes(
    file: &[u8],
    spans: &[u16; 4096],
    low: [i16; 12],
    high: [i16; 12],
    test: Test,
    state: [i16; 12],
) -> bool
    requires spans { Spans file.now spans.now }
    requires within { Within low high state }
    requires fits { TestFits low high file.now test }
    ensures { result ≡ concludes_of low high file.now test test.conclusion state }
{
    match test.conclusion {
        Conclusion::SomeTarget => some_holds(file, spans, &test.targets, state),
        Conclusion::ValuesInRange => {
            let s = step(file, spans, test.transition, low, high, state);
            !matches!(s, Stepped::OutOfRange)
        }
        Conclusion::Reached => match step(file, spans, test.transition, low, high, state) {
            Stepped::To(e) => all_hold(file, spans, &test.targets, e.low, e.high),
            Stepped::Blocked | Stepped::OutOfRange => true,
        },
        Conclusion::Enabled => {
            let s = step(file, spans, test.transition, low, high, state);
            matches!(s, Stepped::To(_))
        }
    }
}

// What is seen of it on a box. Where the transition is seen never to be enabled, the targets are not looked at.
#[tactic(auto, using(domains::proofs::Laws::Seen::never_implies), unfolding(crate::specs::Testing::concludes_in))]
fn concludes_in(file: &[u8], spans: &[u16; 4096], ranges: Box, test: Test, b: Box) -> Seen
    requires spans { Spans file.now spans.now }
    requires fits { TestFits ranges.low ranges.high file.now test }
    requires part { Part ranges b }
    ensures { result ≡ concludes_in ranges file.now test test.conclusion b }
{
    match test.conclusion {
        Conclusion::SomeTarget => some_in(file, spans, &test.targets, b),
        Conclusion::ValuesInRange => {
            let m = next_in(file, spans, test.transition, ranges, b);
            implies(m.guard, m.range)
        }
        Conclusion::Reached => {
            let m = next_in(file, spans, test.transition, ranges, b);
            let enabled = both(m.guard, m.range);
            if never(enabled) {
                return Seen::Yes;
            }
            implies(enabled, some_in(file, spans, &test.targets, m.to))
        }
        Conclusion::Enabled => {
            let m = next_in(file, spans, test.transition, ranges, b);
            both(m.guard, m.range)
        }
    }
}

// Whether a condition holds at a state: its conclusion is looked at only where its premise is true.
#[tactic(auto, using(truths::proofs::Laws::Truth::implies_true, truths::proofs::Laws::Truth::implies_false), unfolding(crate::specs::Testing::passes_of))]
pub fn passes(
    file: &[u8],
    spans: &[u16; 4096],
    low: [i16; 12],
    high: [i16; 12],
    test: Test,
    state: [i16; 12],
) -> bool
    requires spans { Spans file.now spans.now }
    requires within { Within low high state }
    requires fits { TestFits low high file.now test }
    ensures { result ≡ passes_of low high file.now test state }
{
    if !holds(file, spans, test.premise, state) {
        return true;
    }
    concludes(file, spans, low, high, test, state)
}

// What is seen of it on a box: its conclusion is not looked at where its premise is seen never to hold.
#[tactic(auto, using(domains::proofs::Laws::Seen::never_implied), unfolding(crate::specs::Testing::passes_in))]
pub fn passes_in(file: &[u8], spans: &[u16; 4096], ranges: Box, test: Test, b: Box) -> Seen
    requires spans { Spans file.now spans.now }
    requires fits { TestFits ranges.low ranges.high file.now test }
    requires part { Part ranges b }
    ensures { result ≡ passes_in ranges file.now test b }
{
    let premise = seen_in(file, spans, test.premise, b);
    if never(premise) {
        return Seen::Yes;
    }
    implied(concludes_in(file, spans, ranges, test, b), premise)
}
