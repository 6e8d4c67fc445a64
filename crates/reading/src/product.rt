// Products of ranges' sizes: how many states there are, refusal 7, and how many combinations of picks a transition has, refusal 22.
ghost use Rattle.std.specs.Prelude.{◌≡◌, ◌+◌, ◌*◌, ◌≤◌, length};
ghost use Rattle.reading.specs.States.{size_at, states_of};
ghost use Rattle.reading.specs.Picks.{past_record, picks_of};

use records::{kind_is, value_at};
use shapes::Refusal;
use states::size;

// How many values the variable or pick at record `at` has.
#[tactic(auto, unfolding(crate::specs::States::size_at))]
fn range_size(file: &[u8], at: usize) -> usize
    requires { 8 * at + 8 ≤ length file.now }
    ensures { (result ≡ size_at file.now at) × (result ≤ 65536) }
{
    let low = value_at(file, 8 * at + 2);
    let high = value_at(file, 8 * at + 4);
    if high < low {
        size(high, low)
    } else {
        size(low, high)
    }
}

// How many states the file has, or refusal 7 at the variable where they pass the limit.
#[tactic(auto, using(crate::proofs::Steps::States::states_steps))]
pub fn states(file: &[u8], vars: usize) -> Result<usize, Refusal>
    requires { 8 * vars ≤ length file.now }
    ensures { result ≡ states_of file.now vars 0 1 }
{
    let mut product: usize = 1;
    for at in 0..vars {
        product *= range_size(file, at);
        if 1048576 < product {
            return Err(Refusal::States(at));
        }
    }
    Ok(product)
}

// The record of the transition met last, and how many combinations its picks so far have.
#[derive(Clone, Copy)]
pub struct Combined {
    pub place: usize,
    pub product: usize,
}

// The record at `at` more, where p is for those before.
#[tactic(auto, unfolding(crate::specs::Picks::past_record))]
fn past(file: &[u8], at: usize, p: Combined) -> Combined
    requires { (8 * at + 8 ≤ length file.now) × (p.product ≤ 4096) }
    ensures { result ≡ past_record file.now at p }
{
    if kind_is(file, 0x03, at) {
        Combined {
            place: at,
            product: 1,
        }
    } else if kind_is(file, 0x08, at) {
        Combined {
            place: p.place,
            product: p.product * range_size(file, at),
        }
    } else {
        p
    }
}

// Refusal 22 at the first transition with more than 4,096 combinations of picks.
#[tactic(auto, using(crate::proofs::Steps::Picks::picks_steps), unfolding(crate::specs::Picks::picks_of))]
pub fn picks(file: &[u8]) -> Result<usize, Refusal>
    ensures { result ≡ picks_of file.now }
{
    let records = file.len() / 8;
    let mut p = Combined {
        place: 0,
        product: 1,
    };
    for at in 0..records {
        p = past(file, at, p);
        if 4096 < p.product {
            return Err(Refusal::Picks(p.place));
        }
    }
    Ok(records)
}
