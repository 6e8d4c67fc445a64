// Signed numbers: two's complement bytes, intervals, quotients rounded down, digits of a mixed radix, and values of a state.
#![tactic(auto)]

pub mod bytes;
pub mod floor;
pub mod intervals;
pub mod radix;
pub mod state;

#[derive(Clone, Copy)]
pub struct Interval {
    pub low: i64,
    pub high: i64,
}
