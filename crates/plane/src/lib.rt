// Directions and points of the plane (direction.rs, coord/ijk.rs).
#![tactic(auto)]

pub mod direction;
pub mod ijk;
pub mod number;
pub mod rotation;
