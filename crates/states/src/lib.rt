// States and their numbers. The ranges of the twelve variables are given by their low and high ends; a variable that the file lacks has the range 0..0.
#![tactic(auto)]

ghost use Rattle.std.specs.Prelude.{◌≡◌, ◌≤◌, ◌<◌, ◌≤ℤ◌};
ghost use Rattle.states.specs.State.{Within};
ghost use Rattle.states.specs.Ranges.{Ranges, Idle};
ghost use Rattle.states.specs.Number.{size_of, count_of, state_of, number_of};
ghost use Rattle.states.specs.Advance.{last_of, advance_of};

use integers::radix::{offset_of, value_at};

// How many values a range has.
pub fn size(low: i16, high: i16) -> usize
    requires { low ≤ℤ high }
    ensures { (result ≡ size_of low high) × (result ≤ 65536) }
{
    offset_of(low, high) as usize + 1
}

// How many states there are.
pub fn count(low: [i16; 12], high: [i16; 12]) -> usize
    requires ranges { Ranges low high }
    requires most { count_of low high ≤ 1048576 }
    ensures { result ≡ count_of low high }
{
    let mut product = 1;
    for i in (0..12).rev() {
        product *= size(low[i], high[i]);
    }
    product
}

// The state of a number: the last variable is the fastest.
pub fn state_of(low: [i16; 12], high: [i16; 12], number: usize) -> [i16; 12]
    requires ranges { Ranges low high }
    requires below { number < count_of low high }
    ensures { result ≡ state_of low high number }
{
    let mut state = low;
    let mut rest = number;
    for i in (0..12).rev() {
        let n = size(low[i], high[i]);
        state[i] = value_at(low[i], high[i], (rest % n) as u32);
        rest /= n;
    }
    state
}

// The number of a state: each variable's offset counts for the states of the variables behind it.
pub fn number_of(low: [i16; 12], high: [i16; 12], state: [i16; 12]) -> usize
    requires within { Within low high state }
    requires most { count_of low high ≤ 1048576 }
    ensures { result ≡ number_of low high state }
{
    let mut number = 0;
    let mut behind = 1;
    for i in (0..12).rev() {
        number += offset_of(low[i], state[i]) as usize * behind;
        behind *= size(low[i], high[i]);
    }
    number
}

// The next state: the last variable moves on, and one at its high end starts anew. The last state is followed by the first. Variables from `vars` on,
// which the file lacks, are passed over.
pub fn advance(low: [i16; 12], high: [i16; 12], vars: usize, state: [i16; 12]) -> [i16; 12]
    requires most { vars ≤ 12 }
    requires idle { Idle vars low high state }
    ensures { result ≡ advance_of low high state }
{
    let mut next = state;
    for i in (0..vars).rev() {
        if next[i] < high[i] {
            next[i] += 1;
            return next;
        }
        next[i] = low[i];
    }
    next
}

// Whether a state is the last: each variable is at its high end.
pub fn is_last(high: [i16; 12], state: [i16; 12]) -> bool
    ensures { result ≡ last_of high state }
{
    high.iter().zip(&state).all(|(h, v)| *h <= *v)
}
