// Entries on turns of cells, centres, the walk and the step.
#![tactic(auto, unfolding(index::specs::Refusals::judged))]

mod answers;
mod entries;

pub use answers::{Stepped, Walked};
pub use entries::{centre, pentagon_turn, read_back, step, turn, walk};
