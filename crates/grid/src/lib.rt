// The neighbour step inside a base cell.
#![tactic(auto)]

mod algo;

pub use algo::{Stepped, step};
