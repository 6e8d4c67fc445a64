// The sections of a file: variables, transitions, property, nodes and edges, with the refusals 3 to 6 of their records and 19 of their expressions'.
#![tactic(auto)]

mod item;

ghost use Rattle.std.specs.Prelude.{◌≡◌, ℕ, ◌+◌, ◌*◌, ◌/◌, ◌≤◌, ◌<◌, length, replicate};
ghost use Rattle.records.specs.Place.{places_of};
ghost use Rattle.sections.specs.Section.{variable_fields, transition_fields, assignment_fields, pick_fields, property_fields, edge_fields};
ghost use Rattle.sections.specs.Section.{variables_of, is_update, update_fields, update_of, updates_of, transition_of, transitions_of};
ghost use Rattle.sections.specs.Section.{claim_at, phases_fit, phases_or, expressions_of, edge_at, node_of, nodes_of, repeated_of, edge_of, edges_of};

use item::{Node, Transition, Variable, items, places};
use records::kinds::Sort;
use records::walk::{sequence, walk_sort};
use records::{byte_at, kind_is, same_bytes, value_at, word_at, zeros};
use shapes::{Claim, Edge, Refusal, claim_of, property_of};

// How many items a section has, and the record behind them.
#[derive(Clone, Copy, Debug, PartialEq, Eq)]
pub struct Section {
    pub count: usize,
    pub end: usize,
}

// Whether a variable's record has only b and c, and b ≤ c.
fn variable_fields(file: &[u8], at: usize) -> bool
    requires { 8 * at + 8 ≤ length file.now }
    ensures { result ≡ variable_fields file.now at }
{
    let base = 8 * at;
    zeros(file, base + 1, 1)
        && zeros(file, base + 6, 2)
        && value_at(file, base + 2) <= value_at(file, base + 4)
}

// Whether a transition's record has only a, 0 or 1.
fn transition_fields(file: &[u8], at: usize) -> bool
    requires { 8 * at + 8 ≤ length file.now }
    ensures { result ≡ transition_fields file.now at }
{
    let base = 8 * at;
    file[base + 1] <= 1 && zeros(file, base + 2, 6)
}

// Whether an assignment's record has only a, one of the variables.
fn assignment_fields(file: &[u8], vars: usize, at: usize) -> bool
    requires { 8 * at + 8 ≤ length file.now }
    ensures { result ≡ assignment_fields file.now vars at }
{
    let base = 8 * at;
    usize::from(file[base + 1]) < vars && zeros(file, base + 2, 6)
}

// Whether a pick's record has only a, one of the variables, b and c, b ≤ c and both in that variable's range.
fn pick_fields(file: &[u8], vars: usize, at: usize) -> bool
    requires { 8 * at + 8 ≤ length file.now }
    ensures { result ≡ pick_fields file.now vars at }
{
    let base = 8 * at;
    let a = usize::from(file[base + 1]);
    let low = value_at(file, base + 2);
    let high = value_at(file, base + 4);
    a < vars
        && zeros(file, base + 6, 2)
        && low <= high
        && value_at(file, 8 * a + 2) <= low
        && high <= value_at(file, 8 * a + 4)
}

// What the property at record `at` claims.
pub fn claim_at(file: &[u8], at: usize) -> Claim
    requires { 8 * at + 8 ≤ length file.now }
    ensures { result ≡ claim_at file.now at }
{
    claim_of(file[8 * at + 1])
}

// Whether b counts the phases, 1 to 32, or, where there are none, is zero.
fn phases_fit(phased: bool, b: usize) -> bool
    ensures { result ≡ phases_fit phased b }
{
    if phased {
        (1..=32).contains(&b)
    } else {
        b == 0
    }
}

// Whether a property's record names a claim, and has b only where that counts phases.
pub fn property_fields(file: &[u8], at: usize) -> bool
    requires { 8 * at + 8 ≤ length file.now }
    ensures { result ≡ property_fields file.now at }
{
    let property = property_of(claim_at(file, at));
    property.known
        && phases_fit(property.phased, word_at(file, 8 * at + 2))
        && zeros(file, 8 * at + 4, 4)
}

// The edge at record `at`.
pub fn edge_at(file: &[u8], at: usize) -> Edge
    requires { 8 * at + 8 ≤ length file.now }
    ensures { result ≡ edge_at file.now at }
{
    Edge {
        transition: usize::from(byte_at(file, 8 * at + 1)),
        from: word_at(file, 8 * at + 2),
        to: word_at(file, 8 * at + 4),
        double: byte_at(file, 8 * at + 6) == 1,
    }
}

// Whether an edge's record names a transition and two nodes, and is single or double.
fn edge_fields(file: &[u8], transitions: usize, nodes: usize, at: usize) -> bool
    requires { 8 * at + 8 ≤ length file.now }
    ensures { result ≡ edge_fields file.now transitions nodes at }
{
    let base = 8 * at;
    usize::from(file[base + 1]) < transitions
        && word_at(file, base + 2) < nodes
        && word_at(file, base + 4) < nodes
        && file[base + 6] <= 1
        && zeros(file, base + 7, 1)
}

// Whether an assignment or a pick, an update, stands at record `at`.
pub fn is_update(file: &[u8], at: usize) -> bool
    ensures { result ≡ is_update file.now at }
{
    kind_is(file, 0x04, at) || kind_is(file, 0x08, at)
}

// Whether an update's record has only fields and values allowed.
fn update_fields(file: &[u8], vars: usize, at: usize) -> bool
    requires { 8 * at + 8 ≤ length file.now }
    ensures { result ≡ update_fields file.now vars at }
{
    if kind_is(file, 0x08, at) {
        pick_fields(file, vars, at)
    } else {
        assignment_fields(file, vars, at)
    }
}

// An update: an assignment's record and its value, or a pick's record alone.
fn update(file: &[u8], vars: usize, at: usize) -> Result<usize, Refusal>
    requires { 8 * at + 8 ≤ length file.now }
    ensures { result ≡ update_of file.now vars at }
{
    if kind_is(file, 0x08, at) {
        Ok(at + 1)
    } else {
        walk_sort(file, at + 1, Sort::Number, vars, 16)
    }
}

// A transition's updates, from record `at` on.
fn updates(file: &[u8], vars: usize, at: usize) -> Result<usize, Refusal>
    requires { vars ≤ 12 }
    ensures { result ≡ updates_of file.now vars 12 (replicate 12 0) at }
{
    let mut marks = [0u8; 12];
    let mut left: usize = 12;
    let mut next = at;
    // They end at the first record that is none, so no range counts them.
    while is_update(file, next) {
        if !update_fields(file, vars, next) {
            return Err(Refusal::Field(next));
        }
        if left == 0 {
            return Err(Refusal::Repetition(next));
        }
        let a = usize::from(file[8 * next + 1]);
        if marks[a] != 0 {
            return Err(Refusal::Repetition(next));
        }
        marks[a] = 1;
        next = update(file, vars, next)?;
        left -= 1;
    }
    Ok(next)
}

// A transition behind its first record: its guard, then its updates.
fn transition(file: &[u8], vars: usize, at: usize) -> Result<usize, Refusal>
    requires { (vars ≤ 12) × (at ≤ length file.now) }
    ensures { result ≡ transition_of file.now vars at }
{
    updates(file, vars, walk_sort(file, at + 1, Sort::Truth, vars, 16)?)
}

// A node behind its first record: its assertion, then its ranks.
fn node(file: &[u8], vars: usize, ranks: usize, at: usize) -> Result<usize, Refusal>
    requires { at ≤ length file.now }
    ensures { result ≡ node_of file.now vars ranks at }
{
    let end = walk_sort(file, at + 1, Sort::Truth, vars, 16)?;
    sequence(file, Sort::Number, vars, ranks, end)
}

// How many phases the property at `at` counts, or else the limit given.
pub fn phases_or(file: &[u8], at: usize, limit: usize) -> usize
    requires { (8 * at + 8 ≤ length file.now) × (limit < 65536) }
    ensures { (result ≡ phases_or file.now at limit) × (result < 65536) }
{
    let property = property_of(claim_at(file, at));
    if property.phased {
        word_at(file, 8 * at + 2)
    } else {
        limit
    }
}

// How many expressions follow the property at `at`: one q, or one for each phase, and p where it stands before them.
pub fn expressions(file: &[u8], at: usize) -> usize
    requires { 8 * at + 8 ≤ length file.now }
    ensures { result ≡ expressions_of file.now at }
{
    let property = property_of(claim_at(file, at));
    let claims = phases_or(file, at, 1);
    if property.entry { 1 + claims } else { claims }
}

// Whether one of the n edges from `first` on has the a, b and c of the edge at `at`. A call of its own, so that its loop has the registers to itself.
#[inline(never)]
fn repeated(file: &[u8], at: usize, first: usize, n: usize) -> bool
    requires { (8 * at + 8 ≤ length file.now) × (first + n ≤ at) }
    ensures { result ≡ repeated_of file.now at first n }
{
    (first..first + n).any(|edge| same_bytes(file, 8 * edge + 1, 8 * at + 1, 5))
}

// An edge by itself: one record, refused where it repeats one of those before it, from record `first` on.
fn edge(file: &[u8], first: usize, at: usize) -> Result<usize, Refusal>
    requires { (first ≤ at) × (at < length file.now / 8) }
    ensures { result ≡ edge_of file.now first at }
{
    if repeated(file, at, first, at - first) {
        return Err(Refusal::Repetition(at));
    }
    Ok(at + 1)
}

// The variables, from the file's first record on.
pub fn variables(file: &[u8]) -> Result<Section, Refusal>
    ensures { result ≡ variables_of file.now }
{
    items(file, Variable, 12, 0)
}

// The transitions, from record `from` on.
pub fn transitions(file: &[u8], vars: usize, from: usize) -> Result<Section, Refusal>
    requires { vars ≤ 12 }
    ensures { result ≡ transitions_of file.now vars from }
{
    items(file, Transition { vars }, 32, from)
}

// The nodes, each with its ranks, at most `most` of them, from record `from` on.
pub fn nodes(
    file: &[u8],
    vars: usize,
    ranks: usize,
    most: usize,
    from: usize,
) -> Result<Section, Refusal>
    requires { most < 65536 }
    ensures { result ≡ nodes_of file.now vars ranks most from }
{
    items(file, Node { vars, ranks }, most, from)
}

// The edges, from record `first` on.
pub fn edges(
    file: &[u8],
    transitions: usize,
    nodes: usize,
    first: usize,
) -> Result<Section, Refusal>
    ensures { result ≡ edges_of file.now transitions nodes first }
{
    let edge = item::Edge {
        transitions,
        nodes,
        first,
    };
    items(file, edge, 512, first)
}

// Where each of the n transitions from record `first` on stands.
pub fn transition_places(file: &[u8], vars: usize, n: usize, first: usize) -> [usize; 32]
    requires { (vars ≤ 12) × (n ≤ 32) × (first ≤ length file.now / 8) }
    ensures { result ≡ places_of (transition_of file.now vars) n first }
{
    places(file, Transition { vars }, n, first)
}

// Where each of the n nodes from record `first` on stands.
pub fn node_places(file: &[u8], vars: usize, ranks: usize, n: usize, first: usize) -> [usize; 32]
    requires { (n ≤ 32) × (first ≤ length file.now / 8) }
    ensures { result ≡ places_of (node_of file.now vars ranks) n first }
{
    places(file, Node { vars, ranks }, n, first)
}
