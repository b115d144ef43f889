// Entries that take a cell: the check, its descendants and its ancestors.
#![tactic(auto, unfolding(index::specs::Refusals::judged))]

mod entries;

pub use entries::{ancestor, check, child_at, count, cursor, list, list_short, next, position};
// No entry: it takes the checks of two cells, and crosses our own border only.
pub use entries::below;
