// Entries on directions and points.
#![tactic(auto)]

mod entries;

pub use entries::{
    direction_of, direction_turn, distance, down3, down7, from_ij, neighbour, normalise,
    point_turn, same_point, to_ij, unit, up7,
};
