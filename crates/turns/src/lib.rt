// Turns of cells.
#![tactic(auto)]

mod turn;

pub use turn::{pentagon_rotate60, rotate60, turn_digits};
