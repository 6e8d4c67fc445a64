// What a transition does at a state. A transition stands at a record; its guard follows, then its updates.
#![tactic(auto)]

ghost use Rattle.std.specs.Prelude.{◌≡◌, true, ◌&&◌, ◌+◌, ◌*◌, ◌/◌, ◌<◌, ◌≤◌, length, set};
ghost use Rattle.records.specs.Kind.{number as number_sort};
ghost use Rattle.expressions.specs.Expression.{part_at};
ghost use Rattle.expressions.specs.Spans.{Spans};
ghost use Rattle.expressions.specs.Fits.{Fits};
ghost use Rattle.evaluating.specs.Transition.{assignment_at, pick_at, update_at, updates_from, in_range_of};
ghost use Rattle.evaluating.specs.Fits.{UpdateFits, UpdatesFit, TransitionFits};
ghost use Rattle.evaluating.specs.Step.{ends, updated_by, step_of, guard_in, enabled_in, ends_in};

use expressions::{number_at, truth_at};
use integers::state::{between, element};
use records::{byte_at, kind_is, wide_value_at};
use sections::is_update;

// A variable, the lowest and the highest of the values that it may be given, and the record behind the update. An assignment gives it one value.
#[derive(Clone, Copy)]
pub struct Update {
    pub variable: usize,
    pub low: i64,
    pub high: i64,
    pub end: usize,
}

// The lowest and the highest values that the variables may have.
#[derive(Clone, Copy, PartialEq, Eq, Debug)]
pub struct Ends {
    pub low: [i16; 12],
    pub high: [i16; 12],
}

// What a transition does at a state: its guard is false; or some value would lie out of range; or its successors lie between these ends.
#[derive(Clone, Copy, PartialEq, Eq, Debug)]
pub enum Stepped {
    Blocked,
    OutOfRange,
    To(Ends),
}

impl Stepped {
    // Whether its guard is true.
    #[tactic(auto, unfolding(crate::specs::Step::guard_in))]
    pub fn guard(self) -> bool
        ensures { result ≡ guard_in self }
    {
        match self {
            Stepped::Blocked => false,
            Stepped::OutOfRange | Stepped::To(_) => true,
        }
    }

    // Whether it is enabled.
    #[tactic(auto, unfolding(crate::specs::Step::enabled_in))]
    pub fn enabled(self) -> bool
        ensures { result ≡ enabled_in self }
    {
        match self {
            Stepped::Blocked | Stepped::OutOfRange => false,
            Stepped::To(_) => true,
        }
    }

    // The ends between which its successors lie, where it is enabled, else the state that it was asked at for both.
    #[tactic(auto, unfolding(crate::specs::Step::ends_in))]
    pub fn ends(self, state: [i16; 12]) -> Ends
        ensures { result ≡ ends_in self state }
    {
        match self {
            Stepped::Blocked | Stepped::OutOfRange => Ends {
                low: state,
                high: state,
            },
            Stepped::To(ends) => ends,
        }
    }
}

// Whether x lies in the range of variable i.
#[tactic(auto, unfolding(crate::specs::Transition::in_range_of))]
fn in_range(low: [i16; 12], high: [i16; 12], i: usize, x: i64) -> bool
    requires { i < 12 }
    ensures { result ≡ in_range_of low high i x }
{
    between(x, element(low, i), element(high, i))
}

// The state with variable i set to x, which lies in its range.
fn with(low: [i16; 12], high: [i16; 12], state: [i16; 12], i: usize, x: i64) -> [i16; 12]
    requires variable { i < 12 }
    requires range { in_range_of low high i x ≡ true }
    ensures { result ≡ set state i x }
{
    integers::state::assign(state, i, x, low[i], high[i])
}

// The pick at record `at`.
#[tactic(auto, unfolding(crate::specs::Transition::pick_at))]
fn pick_at(file: &[u8], at: usize) -> Update
    requires { 8 * at + 8 ≤ length file.now }
    ensures { result ≡ pick_at file.now at }
{
    Update {
        variable: byte_at(file, 8 * at + 1) as usize,
        low: wide_value_at(file, 8 * at + 2),
        high: wide_value_at(file, 8 * at + 4),
        end: at + 1,
    }
}

// The assignment at record `at`, worked out from the state.
fn assignment_at(file: &[u8], spans: &[u16; 4096], at: usize, state: [i16; 12]) -> Update
    requires fits { Fits 16 number_sort (part_at file.now (at + 1)) state }
    requires spans { Spans file.now spans.now }
    ensures { result ≡ assignment_at file.now at state }
{
    let from = at + 1;
    let value = number_at(&file[8 * from..], spans, from, state, 16);
    Update {
        variable: byte_at(file, 8 * at + 1) as usize,
        low: value,
        high: value,
        end: from + spans[from] as usize,
    }
}

// The update at record `at`.
fn update_at(file: &[u8], spans: &[u16; 4096], at: usize, state: [i16; 12]) -> Update
    requires fits { UpdateFits file.now at state }
    requires spans { Spans file.now spans.now }
    ensures { result ≡ update_at file.now at state }
{
    if kind_is(file, 0x08, at) {
        pick_at(file, at)
    } else {
        assignment_at(file, spans, at, state)
    }
}

// Whether the values of the update lie in its variable's range.
fn fits(low: [i16; 12], high: [i16; 12], u: Update) -> bool
    requires { u.variable < 12 }
    ensures { result ≡ (in_range_of low high u.variable u.low && in_range_of low high u.variable u.high) }
{
    in_range(low, high, u.variable, u.low) && in_range(low, high, u.variable, u.high)
}

// The ends with the values of the update, which lie in its variable's range.
fn with_update(low: [i16; 12], high: [i16; 12], e: Ends, u: Update) -> Ends
    requires variable { u.variable < 12 }
    requires range { (in_range_of low high u.variable u.low && in_range_of low high u.variable u.high) ≡ true }
    ensures { result ≡ ends (set e.low u.variable u.low) (set e.high u.variable u.high) }
{
    // Each in a local first: the borrow checker does not cover an array's field that is given what a call returns.
    let lowest = with(low, high, e.low, u.variable, u.low);
    let highest = with(low, high, e.high, u.variable, u.high);
    Ends {
        low: lowest,
        high: highest,
    }
}

// The updates from record `first` on, each worked out from the state before any is made. None where some value lies out of range.
fn updates(
    file: &[u8],
    spans: &[u16; 4096],
    first: usize,
    low: [i16; 12],
    high: [i16; 12],
    state: [i16; 12],
) -> Option<Ends>
    requires spans { Spans file.now spans.now }
    requires fits { UpdatesFit file.now (length file.now / 8) first state }
    ensures { result ≡ updated_by low high (updates_from file.now (length file.now / 8) first state) state }
{
    let mut e = Ends {
        low: state,
        high: state,
    };
    let mut at = first;
    for _ in 0..file.len() / 8 {
        if !is_update(file, at) {
            break;
        }
        let u = update_at(file, spans, at, state);
        if !fits(low, high, u) {
            return None;
        }
        e = with_update(low, high, e, u);
        at = u.end;
    }
    Some(e)
}

// The transition at record `at`.
pub fn step(
    file: &[u8],
    spans: &[u16; 4096],
    at: usize,
    low: [i16; 12],
    high: [i16; 12],
    state: [i16; 12],
) -> Stepped
    requires spans { Spans file.now spans.now }
    requires fits { TransitionFits file.now at state }
    ensures { result ≡ step_of low high file.now at state }
{
    let from = at + 1;
    if !truth_at(&file[8 * from..], spans, from, state, 16) {
        return Stepped::Blocked;
    }
    match updates(file, spans, from + spans[from] as usize, low, high, state) {
        Some(e) => Stepped::To(e),
        None => Stepped::OutOfRange,
    }
}
