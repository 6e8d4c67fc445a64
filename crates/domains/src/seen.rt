// What is seen of a truth on a box of states: it holds in all of them, in none, or that is not known. Then there is a variable to blame, 12 for none:
// where to halve the box. What is seen is right whichever is blamed.
ghost use Rattle.std.specs.Prelude.{◌≡◌};
ghost use Rattle.domains.specs.Seen.{opposite_of, both_of, either_of, implies_in, implied_in, same_of, connect_in, decides_of, never_of, sure_of};

#[derive(Clone, Copy, PartialEq, Eq, Debug)]
pub enum Seen {
    Yes,
    No,
    Unsure(usize),
}

#[tactic(auto, unfolding(crate::specs::Seen::opposite_of))]
pub fn opposite(p: Seen) -> Seen
    ensures { result ≡ opposite_of p }
{
    match p {
        Seen::Yes => Seen::No,
        Seen::No => Seen::Yes,
        Seen::Unsure(_) => p,
    }
}

#[tactic(auto, unfolding(crate::specs::Seen::both_of))]
pub fn both(p: Seen, q: Seen) -> Seen
    ensures { result ≡ both_of p q }
{
    match (p, q) {
        (Seen::Yes, _) => q,
        (Seen::No, _) | (_, Seen::No) => Seen::No,
        (Seen::Unsure(_), _) => p,
    }
}

#[tactic(auto, unfolding(crate::specs::Seen::either_of))]
pub fn either(p: Seen, q: Seen) -> Seen
    ensures { result ≡ either_of p q }
{
    opposite(both(opposite(p), opposite(q)))
}

#[tactic(auto, unfolding(crate::specs::Seen::implies_in))]
pub fn implies(p: Seen, q: Seen) -> Seen
    ensures { result ≡ implies_in p q }
{
    either(opposite(p), q)
}

// The same, where q is to blame first.
#[tactic(auto, unfolding(crate::specs::Seen::implied_in))]
pub fn implied(q: Seen, p: Seen) -> Seen
    ensures { result ≡ implied_in q p }
{
    either(q, opposite(p))
}

#[tactic(auto, unfolding(crate::specs::Seen::same_of))]
fn same(p: Seen, q: Seen) -> Seen
    ensures { result ≡ same_of p q }
{
    match p {
        Seen::Yes => q,
        Seen::No => opposite(q),
        Seen::Unsure(_) => p,
    }
}

// And, or, implies or iff, by the kind.
#[tactic(auto, unfolding(crate::specs::Seen::connect_in))]
pub fn connect(kind: u8, p: Seen, q: Seen) -> Seen
    ensures { result ≡ connect_in kind p q }
{
    match kind {
        0x23 => both(p, q),
        0x24 => either(p, q),
        0x25 => implies(p, q),
        _ => same(p, q),
    }
}

// Whether the left operand of a connective decides.
#[tactic(auto, unfolding(crate::specs::Seen::decides_of))]
pub fn decides(kind: u8, p: Seen) -> bool
    ensures { result ≡ decides_of kind p }
{
    match p {
        Seen::Yes => kind == 0x24,
        Seen::No => kind == 0x23 || kind == 0x25,
        Seen::Unsure(_) => false,
    }
}

// Whether it holds in every state.
#[tactic(auto, unfolding(crate::specs::Seen::sure_of))]
pub fn sure(p: Seen) -> bool
    ensures { result ≡ sure_of p }
{
    matches!(p, Seen::Yes)
}

// Whether it holds in no state.
#[tactic(auto, unfolding(crate::specs::Seen::never_of))]
pub fn never(p: Seen) -> bool
    ensures { result ≡ never_of p }
{
    matches!(p, Seen::No)
}
