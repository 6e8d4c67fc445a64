// The verification conditions of a diagram: how many there are, and the condition of a number.
#![tactic(auto)]

ghost use Rattle.std.specs.Prelude.{◌≡◌, ◌≤◌, ◌<◌};
ghost use Rattle.diagrams.specs.Diagram.{Loaded};
ghost use Rattle.conditions.specs.Condition.{opening_of, total_of, condition_at, refusal_number, node_number, transition_number};
ghost use Rattle.conditions.specs.Layout.{double_of, layout_of, pair_of};

use diagrams::{Diagram, edge_of};
use shapes::{double_from, property_of};

// A condition, by its node and its transition.
#[derive(Clone, Copy)]
pub enum Condition {
    Start,
    Entry,
    Cover(usize),
    Range(usize, usize),
    Step(usize, usize),
    Enabling(usize, usize),
}

// How the conditions behind the first are laid out: the covers of `covers` nodes, then `size` conditions of each node from `from` up.
#[derive(Clone, Copy)]
pub struct Blocks {
    pub covers: usize,
    pub from: usize,
    pub size: usize,
}

#[tactic(auto, unfolding(crate::specs::Layout::layout_of, crate::specs::Condition::covered_of))]
fn layout(diagram: Diagram) -> Blocks
    requires { diagram.transitions ≤ 32 }
    ensures { result ≡ layout_of diagram }
{
    let property = property_of(diagram.claim);
    Blocks {
        covers: if property.covered { diagram.nodes } else { 1 },
        from: property.from,
        size: 2 * diagram.transitions + usize::from(property.doubles),
    }
}

// How many conditions a diagram has.
pub fn total(file: &[u8], diagram: Diagram) -> usize
    requires { Loaded file.now diagram }
    ensures { result ≡ total_of file.now diagram }
{
    let l = layout(diagram);
    let nodes = diagram.nodes - l.from;
    1 + l.covers + nodes * l.size
}

// The transition of the node's double edges, or one past the transitions where it has none.
pub fn double_of(file: &[u8], diagram: Diagram, node: usize) -> usize
    requires { Loaded file.now diagram }
    ensures { result ≡ double_of file.now diagram node }
{
    for e in 0..diagram.edges {
        let edge = edge_of(file, diagram, e);
        if double_from(edge, node) {
            return edge.transition;
        }
    }
    diagram.transitions
}

// The first condition.
#[tactic(auto, unfolding(crate::specs::Condition::opening_of))]
fn opening(diagram: Diagram) -> Condition
    ensures { result ≡ opening_of diagram }
{
    if property_of(diagram.claim).entry {
        Condition::Entry
    } else {
        Condition::Start
    }
}

// Of a node's range and step conditions by transition, the one numbered k.
#[tactic(auto, unfolding(crate::specs::Layout::pair_of))]
fn pair(node: usize, k: usize) -> Condition
    ensures { result ≡ pair_of node k }
{
    if k % 2 == 0 {
        Condition::Range(node, k / 2)
    } else {
        Condition::Step(node, k / 2)
    }
}

// The condition of a number.
pub fn condition_at(file: &[u8], diagram: Diagram, number: usize) -> Condition
    requires loaded { Loaded file.now diagram }
    requires below { number < total_of file.now diagram }
    ensures { result ≡ condition_at file.now diagram number }
{
    if number == 0 {
        return opening(diagram);
    }
    let l = layout(diagram);
    if number <= l.covers {
        return Condition::Cover(number - 1);
    }
    let rest = number - 1 - l.covers;
    let node = rest / l.size + l.from;
    let k = rest % l.size;
    let double = double_of(file, diagram, node);
    let enabling = 2 * double + 2;
    if k == enabling {
        return Condition::Enabling(node, double);
    }
    if k < enabling {
        return pair(node, k);
    }
    pair(node, k - 1)
}

// How a broken condition is named: the number of its refusal, its node and its transition, 255 where it has none.
#[tactic(auto, unfolding(crate::specs::Condition::name_of))]
pub fn refusal_number(condition: Condition) -> u8
    ensures { result ≡ refusal_number condition }
{
    match condition {
        Condition::Start => 13,
        Condition::Entry => 14,
        Condition::Cover(_) => 15,
        Condition::Range(_, _) => 16,
        Condition::Step(_, _) => 17,
        Condition::Enabling(_, _) => 18,
    }
}

#[tactic(auto, unfolding(crate::specs::Condition::name_of))]
pub fn node_number(condition: Condition) -> u8
    requires { node_number condition ≤ 255 }
    ensures { result ≡ node_number condition }
{
    match condition {
        Condition::Start | Condition::Entry => 255,
        Condition::Cover(n)
        | Condition::Range(n, _)
        | Condition::Step(n, _)
        | Condition::Enabling(n, _) => n as u8,
    }
}

#[tactic(auto, unfolding(crate::specs::Condition::name_of))]
pub fn transition_number(condition: Condition) -> u8
    requires { transition_number condition ≤ 255 }
    ensures { result ≡ transition_number condition }
{
    match condition {
        Condition::Start | Condition::Entry | Condition::Cover(_) => 255,
        Condition::Range(_, t) | Condition::Step(_, t) | Condition::Enabling(_, t) => t as u8,
    }
}
