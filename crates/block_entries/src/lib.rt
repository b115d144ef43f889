// Entries over blocks of cells.
#![tactic(auto)]

mod entries;

pub use entries::{ancestor_block, check_block, position_block};
