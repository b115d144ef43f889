// The library's face: the public entries. They take any numbers, and have no `requires`.
#![tactic(auto)]

pub use block_entries::{ancestor_block, check_block, position_block};
pub use cell_entries::{
    ancestor, check, child_at, count, cursor, list, list_short, next, position,
};
pub use children::{Cursor, Given};
pub use index::Refusal;
pub use plane::ijk::{IJ, IJK};
pub use point_entries::{
    direction_of, direction_turn, distance, down3, down7, from_ij, neighbour, normalise,
    point_turn, same_point, to_ij, unit, up7,
};
pub use step_entries::{Stepped, Walked, centre, pentagon_turn, read_back, step, turn, walk};
