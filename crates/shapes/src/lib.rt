// What every layer speaks of, as values: what a property asks, a row of a table; an edge; where the parts of a file stand; and why a file is refused.
#![tactic(auto)]

ghost use Rattle.std.specs.Prelude.{◌≡◌};
ghost use Rattle.shapes.specs.Property.{claim_of, property_of};
ghost use Rattle.shapes.specs.Edge.{double_from};
ghost use Rattle.shapes.specs.Refusal.{refused_number, refused_place};

// What a property claims.
#[derive(Clone, Copy)]
pub enum Claim {
    Invariance,
    WaitFor,
    Chain,
    Unknown,
}

// What a claim asks of the file and of its diagram.
// known: there is such a claim. phased: b counts the phases, one q and one node for each; else b is zero, and there is one q. entry: p stands before q, and
// entry is the first condition; else start is. covered: each node is covered; else node 0 alone. from: the first node with range and step conditions, and
// the first that edges lead from. rising: an edge may lead up. doubles: edges may be double, and each node from there on has a double one.
// ranks: how many numbers follow a node's assertion.
#[derive(Clone, Copy)]
pub struct Property {
    pub known: bool,
    pub phased: bool,
    pub entry: bool,
    pub covered: bool,
    pub from: usize,
    pub rising: bool,
    pub doubles: bool,
    pub ranks: usize,
}

// An edge: its transition, the nodes that it leads from and to, and whether it is double.
#[derive(Clone, Copy)]
pub struct Edge {
    pub transition: usize,
    pub from: usize,
    pub to: usize,
    pub double: bool,
}

// Where the parts of a file stand, as record numbers, and how many of each there are. The start is at record `vars`.
#[derive(Clone, Copy)]
pub struct Outline {
    pub vars: usize,
    pub transition: usize,
    pub transitions: usize,
    pub property: usize,
    pub node: usize,
    pub nodes: usize,
    pub edge: usize,
    pub edges: usize,
}

// Why a file is refused, or a call on one: what meets it first, at a record, a variable or a node.
#[derive(Clone, Copy, Debug, PartialEq, Eq)]
pub enum Refusal {
    Buffer,
    Length,
    Kind(usize),
    Field(usize),
    Limit(usize),
    Repetition(usize),
    States(usize),
    Interval(usize),
    Edge(usize),
    NoWayDown(usize),
    ConditionNumber,
    StateNumber,
    Divisor(usize),
    NoStart,
    Picks(usize),
}

impl Refusal {
    // Its number, as reports and answers have it.
    pub fn number(self) -> u8
        ensures { result ≡ refused_number self }
    {
        match self {
            Refusal::Buffer => 1,
            Refusal::Length => 2,
            Refusal::Kind(_) => 3,
            Refusal::Field(_) => 4,
            Refusal::Limit(_) => 5,
            Refusal::Repetition(_) => 6,
            Refusal::States(_) => 7,
            Refusal::Interval(_) => 8,
            Refusal::Edge(_) => 9,
            Refusal::NoWayDown(_) => 10,
            Refusal::ConditionNumber => 11,
            Refusal::StateNumber => 12,
            Refusal::Divisor(_) => 19,
            Refusal::NoStart => 20,
            Refusal::Picks(_) => 22,
        }
    }

    // Its place: the record, the variable or the node; 0 where it has none.
    pub fn place(self) -> usize
        ensures { result ≡ refused_place self }
    {
        match self {
            Refusal::Kind(at)
            | Refusal::Field(at)
            | Refusal::Limit(at)
            | Refusal::Repetition(at)
            | Refusal::States(at)
            | Refusal::Interval(at)
            | Refusal::Edge(at)
            | Refusal::Divisor(at)
            | Refusal::Picks(at) => at,
            Refusal::NoWayDown(node) => node,
            Refusal::Buffer
            | Refusal::Length
            | Refusal::ConditionNumber
            | Refusal::StateNumber
            | Refusal::NoStart => 0,
        }
    }
}

// Whether the edge is double and leads from the node.
pub fn double_from(edge: Edge, node: usize) -> bool
    ensures { result ≡ double_from node edge }
{
    edge.double && edge.from == node
}

// The claim of a property's a.
pub fn claim_of(a: u8) -> Claim
    ensures { result ≡ claim_of a }
{
    match a {
        1 => Claim::Invariance,
        2 => Claim::WaitFor,
        3 => Claim::Chain,
        _ => Claim::Unknown,
    }
}

// The row of a claim.
pub fn property_of(claim: Claim) -> Property
    ensures { result ≡ property_of claim }
{
    match claim {
        Claim::Invariance => Property {
            known: true,
            phased: false,
            entry: false,
            covered: true,
            from: 0,
            rising: true,
            doubles: false,
            ranks: 0,
        },
        Claim::WaitFor => Property {
            known: true,
            phased: true,
            entry: true,
            covered: true,
            from: 1,
            rising: false,
            doubles: false,
            ranks: 0,
        },
        Claim::Chain => Property {
            known: true,
            phased: false,
            entry: true,
            covered: false,
            from: 1,
            rising: false,
            doubles: true,
            ranks: 0,
        },
        Claim::Unknown => Property {
            known: false,
            phased: false,
            entry: false,
            covered: false,
            from: 0,
            rising: false,
            doubles: false,
            ranks: 0,
        },
    }
}
