// Interval arithmetic over the operands' ends.
ghost use Rattle.std.specs.Prelude.{◌≡◌, ℤ, ◌+ℤ◌, ◌-ℤ◌, ◌*ℤ◌};
ghost use Rattle.integers.specs.Interval.{bounds, around, over_ends, in_bounds};
ghost use Rattle.integers.specs.Inside.{In, Bounded};

use crate::Interval;

// From the least to the greatest of four numbers.
fn around(p: i64, q: i64, r: i64, s: i64) -> Interval
    ensures { result ≡ around p q r s }
{
    Interval {
        low: p.min(q).min(r.min(s)),
        high: p.max(q).max(r.max(s)),
    }
}

// Around an operation's results at the operands' ends.
fn over_ends<F: Fn(i64, i64) -> i64>(f: F, i: Interval, j: Interval) -> Interval
    requires left { Bounded i }
    requires right { Bounded j }
    requires callable { (x : ℤ) (y : ℤ) → In x bounds → In y bounds → F.pre f x y }
    ensures { (op : ℤ → ℤ → ℤ) → ((x : ℤ) (y : ℤ) (r : ℤ) → In x bounds → In y bounds → F.post f x y r → r ≡ op x y) → result ≡ over_ends op i j }
{
    around(
        f(i.low, j.low),
        f(i.low, j.high),
        f(i.high, j.low),
        f(i.high, j.high),
    )
}

pub fn sum(i: Interval, j: Interval) -> Interval
    requires left { Bounded i }
    requires right { Bounded j }
    ensures { result ≡ over_ends ◌+ℤ◌ i j }
{
    over_ends(|x, y| x + y, i, j)
}

pub fn difference(i: Interval, j: Interval) -> Interval
    requires left { Bounded i }
    requires right { Bounded j }
    ensures { result ≡ over_ends ◌-ℤ◌ i j }
{
    over_ends(|x, y| x - y, i, j)
}

pub fn product(i: Interval, j: Interval) -> Interval
    requires left { Bounded i }
    requires right { Bounded j }
    ensures { result ≡ over_ends ◌*ℤ◌ i j }
{
    over_ends(|x, y| x * y, i, j)
}

// Whether the interval lies in -1,000,000..1,000,000.
pub fn in_bounds(i: Interval) -> bool
    ensures { result ≡ in_bounds i }
{
    let bounds = -1000000..=1000000;
    bounds.contains(&i.low) && bounds.contains(&i.high)
}
