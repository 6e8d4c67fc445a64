// How many boxes the search may look at for a condition. A box costs more than a state, up to all records of the condition, where a state may be done
// with the first of them: so a condition that boxes don't decide costs little more than the loop over the states alone.
ghost use Rattle.std.specs.Prelude.{◌≡◌, ◌+◌, ◌*◌, ◌≤◌, ◌<◌, length, get_or};
ghost use Rattle.searching.specs.Budget.{records_of, budget_of};

use testing::Test;

// The length of the expression at record `at`, by the table; 0 beyond it.
fn length_at(spans: &[u16], at: usize) -> usize
    ensures { (result ≡ get_or spans.now at 0) × (result ≤ 65535) }
{
    spans.get(at).map_or(0, |&n| n as usize)
}

// The records that a box may have to look at. The guard stands behind its transition's record.
fn records(spans: &[u16], test: Test) -> usize
    requires some { 0 < length spans.now }
    requires few { test.targets.count ≤ 32 }
    ensures { (result ≡ records_of spans.now test) × (result ≤ 34 * 65535) }
{
    let own = length_at(spans, test.premise) + length_at(&spans[1..], test.transition);
    own + test.targets.count * length_at(spans, test.targets.places[0] as usize)
}

// At most `most` of them.
#[tactic(auto, unfolding(crate::specs::Budget::budget_of, crate::specs::Budget::fair_of))]
pub fn budget(spans: &[u16; 4096], test: Test, states: usize, most: usize) -> usize
    requires { test.targets.count ≤ 32 }
    ensures { result ≡ budget_of spans.now test states most }
{
    most.min(states / (32 + records(spans, test) / 2))
}
