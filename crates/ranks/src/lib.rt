// The positions of descendants, which this port adds.
#![tactic(auto)]

mod rank;

pub use rank::{child_at, position, rank_of};
