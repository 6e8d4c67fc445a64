// The diagram of a file, with its system, as judging speaks of them. What doesn't depend on a state is looked up once.
#![tactic(auto)]

ghost use Rattle.std.specs.Prelude.{◌≡◌, ℕ, ◌≤◌, ◌<◌, get_or, Ok};
ghost use Rattle.diagrams.specs.Diagram.{found_of, assertions_of, diagram_of, Loaded, edge_of};
ghost use Rattle.diagrams.specs.Truth.{claimed_at, q_number, q_at};

use ranges::{highs, lows};
use reading::read;
use records::walk::truths;
use sections::{claim_at, edge_at, node_places, transition_places};
use shapes::{Claim, Edge, Outline, Refusal, property_of};
use states::count;

// What is looked up once: the variables' ranges and how many states there are; the records of the start's expression, of the transitions, of the property's
// first expression, of the nodes' assertions and of the first edge; how many transitions, nodes and edges there are; and what the property claims.
#[derive(Clone, Copy)]
pub struct Diagram {
    pub vars: usize,
    pub low: [i16; 12],
    pub high: [i16; 12],
    pub states: usize,
    pub start: usize,
    pub transitions: usize,
    pub steps: [usize; 32],
    pub claim: Claim,
    pub claimed: usize,
    pub nodes: usize,
    pub assertions: [usize; 32],
    pub edges: usize,
    pub edge: usize,
}

// Reads a file.
#[tactic(auto, unfolding(crate::specs::Diagram::found_of))]
pub fn find(file: &[u8]) -> Result<Outline, Refusal>
    ensures { result ≡ found_of file.now }
{
    read(file)
}

// Where the assertions of the first n nodes stand: behind the nodes' records.
fn assertions(nodes: [usize; 32], n: usize) -> [usize; 32]
    requires most { n ≤ 32 }
    requires small { (i : ℕ) → i < n → get_or nodes i 0 ≤ 4096 }
    ensures { result ≡ assertions_of nodes n }
{
    let mut places = [0usize; 32];
    for i in 0..n {
        places[i] = nodes[i] + 1;
    }
    places
}

// The diagram of a file that was found to have one.
pub fn diagram_of(file: &[u8], outline: Outline) -> Diagram
    requires { found_of file.now ≡ Ok outline }
    ensures { result ≡ diagram_of file.now outline }
{
    let vars = outline.vars;
    let low = lows(file, vars);
    let high = highs(file, vars);
    let claim = claim_at(file, outline.property);
    let property = property_of(claim);
    let nodes = node_places(file, vars, property.ranks, outline.nodes, outline.node);
    let assertions = assertions(nodes, outline.nodes);
    let steps = transition_places(file, vars, outline.transitions, outline.transition);
    Diagram {
        vars,
        low,
        high,
        states: count(low, high),
        start: vars + 1,
        transitions: outline.transitions,
        steps,
        claim,
        claimed: outline.property + 1,
        nodes: outline.nodes,
        assertions,
        edges: outline.edges,
        edge: outline.edge,
    }
}

// Where expression i of the property stands.
pub fn claimed_at(file: &[u8], diagram: Diagram, i: usize) -> usize
    requires { Loaded file.now diagram }
    ensures { result ≡ claimed_at file.now diagram i }
{
    truths(file, diagram.vars, i, diagram.claimed).unwrap_or(0)
}

// Which of the property's expressions is the q of node i.
#[tactic(auto, unfolding(crate::specs::Truth::q_number))]
fn q_number(claim: Claim, i: usize) -> usize
    requires { i ≤ 32 }
    ensures { result ≡ q_number claim i }
{
    let property = property_of(claim);
    let before = usize::from(property.entry);
    if property.phased { before + i } else { before }
}

// Where the q of node i stands.
pub fn q_at(file: &[u8], diagram: Diagram, i: usize) -> usize
    requires loaded { Loaded file.now diagram }
    requires there { i < diagram.nodes }
    ensures { result ≡ q_at file.now diagram i }
{
    let claim = diagram.claim;
    claimed_at(file, diagram, q_number(claim, i))
}

// Edge e of the diagram.
pub fn edge_of(file: &[u8], diagram: Diagram, e: usize) -> Edge
    requires loaded { Loaded file.now diagram }
    requires there { e < diagram.edges }
    ensures { result ≡ edge_of file.now diagram e }
{
    edge_at(file, diagram.edge + e)
}
