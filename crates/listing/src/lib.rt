// The descendants of a cell into a lent buffer.
#![tactic(auto)]

mod blocks;

pub use blocks::list;
