// What is known of truths and of numbers on a box of states.
#![tactic(auto)]

pub mod extents;
pub mod seen;
