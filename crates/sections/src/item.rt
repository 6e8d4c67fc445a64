// A section by what its items are, so that one loop goes through any section.
ghost use Rattle.std.specs.Prelude.{◌≡◌, ℕ, Bool, ◌+◌, ◌*◌, ◌/◌, ◌≤◌, ◌<◌, List, length, Ok};
ghost use Rattle.records.specs.Place.{places_of};
ghost use Rattle.records.specs.Walk.{Walked};
ghost use Rattle.sections.specs.Section.{variable_fields, no_fields, transition_fields, edge_fields, items_of, transition_of, node_of, edge_of};

use crate::{Section, edge, edge_fields, node, transition, transition_fields, variable_fields};
use records::{kind_is, zeros};
use shapes::Refusal;

// What the items of a section are: the kind and the fields of an item's first record, and the walk of the item.
pub trait Item {
    ghost KIND: { ℕ };

    ghost fields: { Self → List ℕ → ℕ → Bool };

    ghost walk: { Self → List ℕ → ℕ → Walked };

    // What is asked of the record where an item's walk begins.
    ghost Walkable: { Self → List ℕ → ℕ → Type 0 };

    const KIND: u8;

    // Whether the first record has only fields and values allowed.
    fn fields(self, file: &[u8], at: usize) -> bool
        requires { 8 * at + 8 ≤ length file.now }
        ensures { result ≡ fields self file.now at };

    // The item whose first record is at `at`: to the record behind it.
    fn walk(self, file: &[u8], at: usize) -> Result<usize, Refusal>
        requires { Walkable self file.now at }
        ensures { result ≡ walk self file.now at };
}

// A variable: one record.
#[derive(Clone, Copy)]
pub struct Variable;

impl Item for Variable {
    ghost KIND = { 0x01 };

    ghost fields = { λ item. variable_fields };

    ghost walk = { λ item file at. Ok (at + 1) };

    ghost Walkable = { λ item file at. at < length file / 8 };

    const KIND: u8 = 0x01;

    fn fields(self, file: &[u8], at: usize) -> bool {
        variable_fields(file, at)
    }

    fn walk(self, file: &[u8], at: usize) -> Result<usize, Refusal> {
        Ok(at + 1)
    }
}

// A transition, which may name so many variables. It may begin where the file ends: its walk is then refused.
#[derive(Clone, Copy)]
pub struct Transition {
    pub vars: usize,
}

impl Item for Transition {
    ghost KIND = { 0x03 };

    ghost fields = { λ item. transition_fields };

    ghost walk = { λ item file. transition_of file item.vars };

    ghost Walkable = { λ item file at. (item.vars ≤ 12) × (at ≤ length file / 8) };

    const KIND: u8 = 0x03;

    fn fields(self, file: &[u8], at: usize) -> bool {
        transition_fields(file, at)
    }

    fn walk(self, file: &[u8], at: usize) -> Result<usize, Refusal> {
        transition(file, self.vars, at)
    }
}

// A node, which may name so many variables, with its number of ranks. It may begin where the file ends: its walk is then refused.
#[derive(Clone, Copy)]
pub struct Node {
    pub vars: usize,
    pub ranks: usize,
}

impl Item for Node {
    ghost KIND = { 0x06 };

    ghost fields = { λ item. no_fields };

    ghost walk = { λ item file. node_of file item.vars item.ranks };

    ghost Walkable = { λ item file at. at ≤ length file / 8 };

    const KIND: u8 = 0x06;

    fn fields(self, file: &[u8], at: usize) -> bool {
        zeros(file, 8 * at + 1, 7)
    }

    fn walk(self, file: &[u8], at: usize) -> Result<usize, Refusal> {
        node(file, self.vars, self.ranks, at)
    }
}

// An edge, one record, which may name so many transitions and nodes. Those from record `first` on lie before it: it repeats none of them.
#[derive(Clone, Copy)]
pub struct Edge {
    pub transitions: usize,
    pub nodes: usize,
    pub first: usize,
}

impl Item for Edge {
    ghost KIND = { 0x07 };

    ghost fields = { λ item file. edge_fields file item.transitions item.nodes };

    ghost walk = { λ item file. edge_of file item.first };

    ghost Walkable = { λ item file at. (item.first ≤ at) × (at < length file / 8) };

    const KIND: u8 = 0x07;

    fn fields(self, file: &[u8], at: usize) -> bool {
        edge_fields(file, self.transitions, self.nodes, at)
    }

    fn walk(self, file: &[u8], at: usize) -> Result<usize, Refusal> {
        edge(file, self.first, at)
    }
}

// The items of a section, at most `most` of them, from record `from` on.
pub fn items<I: Item + Copy>(
    file: &[u8],
    item: I,
    most: usize,
    from: usize,
) -> Result<Section, Refusal>
    requires walkable { (i : ℕ) → from ≤ i → i < length file.now / 8 → I.Walkable item file.now i }
    requires onward { (i end : ℕ) → I.walk item file.now i ≡ Ok end → i < end }
    ensures { result ≡ items_of file.now I.KIND (I.fields item file.now) (I.walk item file.now) most 0 from }
{
    let mut count: usize = 0;
    let mut at = from;
    // It ends at the first record of another kind, so no range counts its items.
    while kind_is(file, I::KIND, at) {
        if !item.fields(file, at) {
            return Err(Refusal::Field(at));
        }
        if count == most {
            return Err(Refusal::Limit(at));
        }
        at = item.walk(file, at)?;
        count += 1;
    }
    Ok(Section { count, end: at })
}

// Where each of the n items from record `first` on stands.
pub fn places<I: Item + Copy>(file: &[u8], item: I, n: usize, first: usize) -> [usize; 32]
    requires few { (n ≤ 32) × (first ≤ length file.now / 8) }
    requires walkable { (i : ℕ) → i ≤ length file.now / 8 → I.Walkable item file.now i }
    requires within { (i end : ℕ) → I.walk item file.now i ≡ Ok end → end ≤ length file.now / 8 }
    ensures { result ≡ places_of (I.walk item file.now) n first }
{
    let mut places = [0usize; 32];
    let mut next = first;
    for i in 0..n {
        places[i] = next;
        let Ok(end) = item.walk(file, next) else {
            return places;
        };
        next = end;
    }
    places
}
