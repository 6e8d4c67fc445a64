// Parses a whole file, section by section: refusals 2 to 6 and 19, or its outline.
#![tactic(auto)]

ghost use Rattle.std.specs.Prelude.{◌≡◌, ◌+◌, ◌*◌, ◌≤◌, length};
ghost use Rattle.parsing.specs.Outline.{nodes_parsed, property_parsed, transitions_parsed, start_parsed, parsed_of};

use records::kinds::Sort;
use records::walk::{truths, walk_sort};
use records::{kind_is, zeros};
use sections::{
    claim_at, edges, expressions, nodes, phases_or, property_fields, transitions, variables,
};
use shapes::{Outline, Refusal, property_of};

// The nodes, then the edges, to the file's end.
fn parse_nodes(
    file: &[u8],
    vars: usize,
    transition: usize,
    transitions: usize,
    property: usize,
    node: usize,
) -> Result<Outline, Refusal>
    requires { 8 * property + 8 ≤ length file.now }
    ensures { result ≡ nodes_parsed file.now vars transition transitions property node }
{
    let row = property_of(claim_at(file, property));
    let most = phases_or(file, property, 32);
    let nodes = nodes(file, vars, row.ranks, most, node)?;
    if nodes.count < phases_or(file, property, 1) {
        return Err(Refusal::Kind(nodes.end));
    }
    let edges = edges(file, transitions, nodes.count, nodes.end)?;
    if edges.end != file.len() / 8 {
        return Err(Refusal::Kind(edges.end));
    }
    Ok(Outline {
        vars,
        transition,
        transitions,
        property,
        node,
        nodes: nodes.count,
        edge: nodes.end,
        edges: edges.count,
    })
}

// The property with its expressions, and what follows.
fn parse_property(
    file: &[u8],
    vars: usize,
    transition: usize,
    transitions: usize,
    property: usize,
) -> Result<Outline, Refusal>
    ensures { result ≡ property_parsed file.now vars transition transitions property }
{
    if !kind_is(file, 0x05, property) {
        return Err(Refusal::Kind(property));
    }
    if !property_fields(file, property) {
        return Err(Refusal::Field(property));
    }
    let node = truths(file, vars, expressions(file, property), property + 1)?;
    parse_nodes(file, vars, transition, transitions, property, node)
}

// The transitions, and what follows.
fn parse_transitions(file: &[u8], vars: usize, transition: usize) -> Result<Outline, Refusal>
    requires { vars ≤ 12 }
    ensures { result ≡ transitions_parsed file.now vars transition }
{
    let transitions = transitions(file, vars, transition)?;
    parse_property(file, vars, transition, transitions.count, transitions.end)
}

// The start, behind one variable or more, and what follows.
fn parse_start(file: &[u8], vars: usize, at: usize) -> Result<Outline, Refusal>
    requires { vars ≤ 12 }
    ensures { result ≡ start_parsed file.now vars at }
{
    if vars < 1 || !kind_is(file, 0x02, at) {
        return Err(Refusal::Kind(at));
    }
    if !zeros(file, 8 * at + 1, 7) {
        return Err(Refusal::Field(at));
    }
    parse_transitions(file, vars, walk_sort(file, at + 1, Sort::Truth, vars, 16)?)
}

// Parses a file: refusals 2 to 6 and 19, or where its parts stand.
pub fn parse(file: &[u8]) -> Result<Outline, Refusal>
    ensures { result ≡ parsed_of file.now }
{
    if file.len() % 8 != 0 || 32768 < file.len() {
        return Err(Refusal::Length);
    }
    let variables = variables(file)?;
    parse_start(file, variables.count, variables.end)
}
