// Where a transition leads from a box of states. A transition stands at a record; its guard follows, then its updates.
#![tactic(auto)]

ghost use Rattle.std.specs.Prelude.{◌≡◌, ◌+◌, ◌*◌, ◌/◌, ◌<◌, ◌≤◌, length, set};
ghost use Rattle.integers.specs.Inside.{Bounded};
ghost use Rattle.records.specs.Kind.{number as number_sort};
ghost use Rattle.expressions.specs.Expression.{part_at};
ghost use Rattle.expressions.specs.Spans.{Spans};
ghost use Rattle.expressions.specs.Fits.{Fits};
ghost use Rattle.evaluating.specs.Fits.{UpdateFits, UpdatesFit, TransitionFits};
ghost use Rattle.boxes.specs.Box.{box};
ghost use Rattle.successors.specs.Successor.{point_of, range_in, cut_in, picked_at, assigned_at, target_at, targets_from, toward_of, reached_by, start, move_of};

use boxes::Box;
use domains::extents::{Extent, at_most, cut};
use domains::seen::{Seen, both, never};
use enclosures::{number_in, seen_in};
use expressions::after;
use integers::Interval;
use records::{byte_at, kind_is, value_at};
use sections::is_update;

// A variable, what is known of the values that it may be given, and the record behind the update.
#[derive(Clone, Copy)]
pub struct Target {
    pub variable: usize,
    pub extent: Extent,
    pub end: usize,
}

// What is seen of the values given all lying in range, and a box that holds the states with those values where they do.
#[derive(Clone, Copy)]
pub struct Reached {
    pub range: Seen,
    pub to: Box,
}

// What is seen of a transition: of its guard, of the values that it gives all lying in range, and a box that holds every successor.
#[derive(Clone, Copy)]
pub struct Moved {
    pub guard: Seen,
    pub range: Seen,
    pub to: Box,
}

// The extent of a number that is known.
fn point(v: i16) -> Extent
    ensures is { result ≡ point_of v }
    ensures bounded { Bounded result.span }
{
    let x = i64::from(v);
    Extent {
        span: Interval { low: x, high: x },
        widest: 12,
    }
}

// Whether what variable i is set to lies in its range.
#[tactic(auto, unfolding(crate::specs::Successor::range_in))]
fn range_of(ranges: Box, i: usize, e: Extent) -> Seen
    requires variable { i < 12 }
    requires bounded { Bounded e.span }
    ensures { result ≡ range_in ranges i e }
{
    both(
        at_most(point(ranges.low[i]), e),
        at_most(e, point(ranges.high[i])),
    )
}

// The number, or the end of the range of variable i that it lies beyond.
fn cut_in(ranges: Box, i: usize, x: i64) -> i16
    requires { i < 12 }
    ensures { result ≡ cut_in ranges i x }
{
    cut(i64::from(ranges.low[i]), i64::from(ranges.high[i]), x) as i16
}

// The box with these ends for variable i.
fn with(mut b: Box, i: usize, l: i16, h: i16) -> Box
    requires { i < 12 }
    ensures { result ≡ box (set b.low i l) (set b.high i h) }
{
    b.low[i] = l;
    b.high[i] = h;
    b
}

// One update more.
#[tactic(auto, unfolding(crate::specs::Successor::toward_of))]
fn toward(ranges: Box, m: Reached, t: Target) -> Reached
    requires variable { t.variable < 12 }
    requires bounded { Bounded t.extent.span }
    ensures { result ≡ toward_of ranges m t }
{
    let i = t.variable;
    let low = cut_in(ranges, i, t.extent.span.low);
    let high = cut_in(ranges, i, t.extent.span.high);
    Reached {
        range: both(m.range, range_of(ranges, i, t.extent)),
        to: with(m.to, i, low, high),
    }
}

// The pick at record `at`.
#[tactic(auto, unfolding(crate::specs::Successor::picked_at))]
fn picked_at(file: &[u8], at: usize) -> Target
    requires { 8 * at + 8 ≤ length file.now }
    ensures is { result ≡ picked_at file.now at }
    ensures bounded { Bounded result.extent.span }
{
    let low = i64::from(value_at(file, 8 * at + 2));
    let high = i64::from(value_at(file, 8 * at + 4));
    Target {
        variable: byte_at(file, 8 * at + 1) as usize,
        extent: Extent {
            span: Interval { low, high },
            widest: 12,
        },
        end: at + 1,
    }
}

// The assignment at record `at`.
fn assigned_at(file: &[u8], spans: &[u16; 4096], at: usize, b: Box) -> Target
    requires fits { Fits 16 number_sort (part_at file.now (at + 1)) b.low }
    requires spans { Spans file.now spans.now }
    ensures { result ≡ assigned_at file.now at b }
{
    let from = at + 1;
    Target {
        variable: byte_at(file, 8 * at + 1) as usize,
        extent: number_in(after(file, from), spans, from, b, 16),
        end: from + spans[from] as usize,
    }
}

// The update at record `at`.
fn target_at(file: &[u8], spans: &[u16; 4096], at: usize, b: Box) -> Target
    requires fits { UpdateFits file.now at b.low }
    requires spans { Spans file.now spans.now }
    ensures is { result ≡ target_at file.now at b }
    ensures bounded { Bounded result.extent.span }
{
    if kind_is(file, 0x08, at) {
        picked_at(file, at)
    } else {
        assigned_at(file, spans, at, b)
    }
}

// The updates from record `first` on, each by what is known of its values on the box b.
fn reach(file: &[u8], spans: &[u16; 4096], first: usize, ranges: Box, b: Box) -> Reached
    requires spans { Spans file.now spans.now }
    requires fits { UpdatesFit file.now (length file.now / 8) first b.low }
    ensures { result ≡ reached_by ranges (targets_from file.now (length file.now / 8) first b) (start b) }
{
    let mut m = Reached {
        range: Seen::Yes,
        to: b,
    };
    let mut at = first;
    for _ in 0..file.len() / 8 {
        if !is_update(file, at) {
            return m;
        }
        let t = target_at(file, spans, at, b);
        m = toward(ranges, m, t);
        at = t.end;
    }
    m
}

// The transition at record `at`, whose updates are not looked at where its guard is seen never to hold.
pub fn next_in(file: &[u8], spans: &[u16; 4096], at: usize, ranges: Box, b: Box) -> Moved
    requires spans { Spans file.now spans.now }
    requires fits { TransitionFits file.now at b.low }
    ensures { result ≡ move_of ranges file.now at b }
{
    let from = at + 1;
    let guard = seen_in(file, spans, from, b);
    if never(guard) {
        return Moved {
            guard,
            range: Seen::No,
            to: b,
        };
    }
    let m = reach(file, spans, from + spans[from] as usize, ranges, b);
    Moved {
        guard,
        range: m.range,
        to: m.to,
    }
}
