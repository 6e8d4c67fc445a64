// The edge rules: refusals 9 and 10.
ghost use Rattle.std.specs.Prelude.{◌≡◌, ◌+◌, ◌*◌, ◌≤◌, ◌<◌, length};
ghost use Rattle.sections.specs.Section.{transition_of, edge_at};
ghost use Rattle.records.specs.Place.{places_of};
ghost use Rattle.truths.specs.Search.{any};
ghost use Rattle.reading.specs.Edge.{conflict_of, just_of, leads_of, falls_of, double_rule_of, rule_of, rules_of, doubled_of, doubles_of};
ghost use Rattle.reading.specs.Fits.{OutlineFits, EdgeFits};

use records::byte_at;
use sections::{claim_at, edge_at, transition_places};
use shapes::{Edge, Outline, Property, Refusal, double_from, property_of};

// Whether two edges conflict: from one node, either of one transition, single and double, or both double.
#[tactic(auto, unfolding(crate::specs::Edge::conflict_of))]
fn conflict(a: Edge, b: Edge) -> bool
    ensures { result ≡ conflict_of a b }
{
    a.from == b.from
        && if a.transition == b.transition {
            a.double != b.double
        } else {
            a.double && b.double
        }
}

// Whether the edge at `at` conflicts with that one. Where it leads from is read and compared first, as most edges differ there.
#[tactic(auto, unfolding(crate::specs::Edge::conflict_of))]
fn conflict_at(file: &[u8], at: usize, edge: Edge) -> bool
    requires { 8 * at + 8 ≤ length file.now }
    ensures { result ≡ conflict_of (edge_at file.now at) edge }
{
    edge_at(file, at).from == edge.from && conflict(edge_at(file, at), edge)
}

// Whether one of the n edges from record `first` on conflicts with the edge. A call of its own, so that its loop has the registers to itself.
#[inline(never)]
fn conflicts(file: &[u8], edge: Edge, first: usize, n: usize) -> bool
    requires { 8 * (first + n) ≤ length file.now }
    ensures { result ≡ any (λ i. conflict_of (edge_at file.now i) edge) n first }
{
    (first..first + n).any(|at| conflict_at(file, at, edge))
}

// Whether transition t is just, where `places` has the transitions' records.
fn just(file: &[u8], outline: Outline, places: [usize; 32], t: usize) -> bool
    requires outline { OutlineFits file.now outline }
    requires found { places ≡ places_of (transition_of file.now outline.vars) outline.transitions outline.transition }
    requires there { t < outline.transitions }
    ensures { result ≡ just_of file.now outline t }
{
    let place = places[t];
    byte_at(file, 8 * place + 1) == 1
}

// Whether an edge leads from a node that it may, and not up unless it may.
#[tactic(auto, unfolding(crate::specs::Edge::leads_of))]
fn leads(property: Property, edge: Edge) -> bool
    ensures { result ≡ leads_of property edge }
{
    property.from <= edge.from && (property.rising || edge.to <= edge.from)
}

// Whether a double edge leads down, or anywhere where edges may.
#[tactic(auto, unfolding(crate::specs::Edge::falls_of))]
fn falls(property: Property, edge: Edge) -> bool
    ensures { result ≡ falls_of property edge }
{
    property.rising || edge.to < edge.from
}

// Whether an edge of a diagram that has double edges obeys the rules of those.
#[tactic(auto, unfolding(crate::specs::Edge::double_rule_of))]
fn double_rule(file: &[u8], outline: Outline, places: [usize; 32], at: usize) -> bool
    requires { EdgeFits file.now outline places at }
    ensures { result ≡ double_rule_of file.now outline at }
{
    let edge = edge_at(file, at);
    let first = outline.edge;
    !conflicts(file, edge, first, at - first)
        && (!edge.double
            || (falls(property_of(claim_at(file, outline.property)), edge)
                && just(file, outline, places, edge.transition)))
}

// Whether the edge at `at` obeys the edge rules, given the edges before it.
#[tactic(auto, unfolding(crate::specs::Edge::rule_of))]
fn rule(file: &[u8], outline: Outline, places: [usize; 32], at: usize) -> bool
    requires { EdgeFits file.now outline places at }
    ensures { result ≡ rule_of file.now outline at }
{
    let property = property_of(claim_at(file, outline.property));
    let edge = edge_at(file, at);
    leads(property, edge)
        && if property.doubles {
            double_rule(file, outline, places, at)
        } else {
            !edge.double
        }
}

// Refusal 9 at the first edge that breaks a rule.
#[tactic(auto, using(crate::proofs::Steps::Edge::refuse_steps), unfolding(crate::specs::Edge::rules_of))]
pub(crate) fn rules(file: &[u8], outline: Outline) -> Result<usize, Refusal>
    requires { OutlineFits file.now outline }
    ensures { result ≡ rules_of file.now outline }
{
    let places = transition_places(file, outline.vars, outline.transitions, outline.transition);
    let end = outline.edge + outline.edges;
    for at in outline.edge..end {
        if !rule(file, outline, places, at) {
            return Err(Refusal::Edge(at));
        }
    }
    Ok(end)
}

// Whether a double edge leads from the node.
fn doubled(file: &[u8], outline: Outline, node: usize) -> bool
    requires { OutlineFits file.now outline }
    ensures { result ≡ doubled_of file.now outline node }
{
    (outline.edge..outline.edge + outline.edges).any(|at| double_from(edge_at(file, at), node))
}

// Refusal 10 at the lowest node that lacks its double edge.
#[tactic(auto, using(crate::proofs::Steps::Edge::refuse_steps), unfolding(crate::specs::Edge::doubles_of))]
pub(crate) fn doubles(file: &[u8], outline: Outline) -> Result<usize, Refusal>
    requires { OutlineFits file.now outline }
    ensures { result ≡ doubles_of file.now outline }
{
    let property = property_of(claim_at(file, outline.property));
    if !property.doubles {
        return Ok(0);
    }
    for node in property.from..outline.nodes {
        if !doubled(file, outline, node) {
            return Err(Refusal::NoWayDown(node));
        }
    }
    Ok(property.from.max(outline.nodes))
}
