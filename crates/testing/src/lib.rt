// A condition prepared for its tests: what does not depend on the state is looked up once.
#![tactic(auto)]

pub mod tests;

ghost use Rattle.std.specs.Prelude.{◌≡◌, [], ◌∷◌, ℕ, ◌≤◌, ◌<◌, get_or};
ghost use Rattle.diagrams.specs.Diagram.{Loaded};
ghost use Rattle.conditions.specs.Edges.{carries};
ghost use Rattle.conditions.specs.Condition.{Listed};
ghost use Rattle.testing.specs.Testing.{marks_of, targets_of, chosen_of, prepared_of, denial_of, test_of};

use conditions::{Condition, double_of};
use diagrams::{Diagram, claimed_at, edge_of, q_at};
use shapes::Edge;

// What a condition's premise must imply: that one of the targets is true; that a true guard goes with values in range; that a step leads to one of
// the targets; that the transition is enabled.
#[derive(Clone, Copy)]
pub enum Conclusion {
    SomeTarget,
    ValuesInRange,
    Reached,
    Enabled,
}

// Records of truth expressions: the first `count` of the places.
#[derive(Clone, Copy)]
pub struct Targets {
    pub places: [u16; 32],
    pub count: usize,
}

impl Targets {
    #[tactic(auto, unfolding(crate::specs::Testing::targets_of))]
    fn one(place: usize) -> Targets
        requires { place ≤ 4096 }
        ensures { result ≡ targets_of (place ∷ []) }
    {
        let mut places = [0; 32];
        places[0] = place as u16;
        Targets { places, count: 1 }
    }

    #[tactic(auto, unfolding(crate::specs::Testing::targets_of))]
    fn none() -> Targets
        ensures { result ≡ targets_of [] }
    {
        Targets {
            places: [0; 32],
            count: 0,
        }
    }
}

// A condition, with the records that it speaks of.
#[derive(Clone, Copy)]
pub struct Test {
    pub premise: usize,
    pub conclusion: Conclusion,
    pub transition: usize,
    pub targets: Targets,
}

impl Test {
    #[tactic(auto, unfolding(crate::specs::Testing::prepared_of))]
    fn new(premise: usize, conclusion: Conclusion, transition: usize, targets: Targets) -> Test
        ensures { result ≡ prepared_of premise conclusion transition targets }
    {
        Test {
            premise,
            conclusion,
            transition,
            targets,
        }
    }
}

// Whether the edge is one of this transition from this node.
#[tactic(auto, using(conditions::proofs::Laws::Double::carries_is))]
fn carries(node: usize, transition: usize, edge: Edge) -> bool
    ensures { result ≡ carries node transition edge }
{
    edge.from == node && edge.transition == transition
}

// The nodes that a step may lead to: the edges' targets, and the node itself where it may be kept.
fn marks(file: &[u8], diagram: Diagram, node: usize, transition: usize, keep: bool) -> [bool; 32]
    requires loaded { Loaded file.now diagram }
    requires there { node < diagram.nodes }
    ensures { result ≡ marks_of file.now diagram node transition keep }
{
    let mut marks = [false; 32];
    marks[node] = keep;
    for e in 0..diagram.edges {
        let edge = edge_of(file, diagram, e);
        if carries(node, transition, edge) {
            marks[edge.to] = true;
        }
    }
    marks
}

// The assertions of those of the first n nodes that are marked.
fn choose(marks: [bool; 32], assertions: [usize; 32], n: usize) -> Targets
    requires most { n ≤ 32 }
    requires small { (i : ℕ) → i < n → get_or assertions i 0 ≤ 4096 }
    ensures { result ≡ chosen_of marks assertions n }
{
    let mut places = [0; 32];
    let mut count = 0;
    for i in 0..n {
        if marks[i] {
            places[count] = assertions[i] as u16;
            count += 1;
        }
    }
    Targets { places, count }
}

// The test that the truth at a place is false.
#[tactic(auto, unfolding(crate::specs::Testing::denial_of))]
pub fn denial(place: usize) -> Test
    ensures { result ≡ denial_of place }
{
    Test::new(place, Conclusion::SomeTarget, 0, Targets::none())
}

// The test of a condition that speaks of a transition: its premise is a node's assertion.
fn of_transition(
    diagram: Diagram,
    node: usize,
    transition: usize,
    conclusion: Conclusion,
    targets: Targets,
) -> Test
    requires { (node < 32) × (transition < 32) }
    ensures { result ≡ prepared_of (get_or diagram.assertions node 0) conclusion (get_or diagram.steps transition 0) targets }
{
    Test::new(
        diagram.assertions[node],
        conclusion,
        diagram.steps[transition],
        targets,
    )
}

// The test of a condition.
#[tactic(auto, unfolding(crate::specs::Testing::test_of))]
pub fn test_of(file: &[u8], diagram: Diagram, condition: Condition) -> Test
    requires loaded { Loaded file.now diagram }
    requires listed { Listed file.now diagram condition }
    ensures { result ≡ test_of file.now diagram condition }
{
    let Diagram {
        assertions,
        nodes,
        ..
    } = diagram;
    match condition {
        Condition::Start => {
            let all = choose([true; 32], assertions, nodes);
            Test::new(diagram.start, Conclusion::SomeTarget, 0, all)
        }
        Condition::Entry => {
            let all = choose([true; 32], assertions, nodes);
            Test::new(claimed_at(file, diagram, 0), Conclusion::SomeTarget, 0, all)
        }
        Condition::Cover(n) => {
            let q = Targets::one(q_at(file, diagram, n));
            Test::new(assertions[n], Conclusion::SomeTarget, 0, q)
        }
        Condition::Range(n, t) => of_transition(
            diagram,
            n,
            t,
            Conclusion::ValuesInRange,
            Targets::none(),
        ),
        Condition::Step(n, t) => {
            let keep = double_of(file, diagram, n) != t;
            let marks = marks(file, diagram, n, t, keep);
            of_transition(
                diagram,
                n,
                t,
                Conclusion::Reached,
                choose(marks, assertions, nodes),
            )
        }
        Condition::Enabling(n, t) => of_transition(
            diagram,
            n,
            t,
            Conclusion::Enabled,
            Targets::none(),
        ),
    }
}
