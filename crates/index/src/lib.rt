// The 64 bits of an index (index/bits.rs and the public layout): its kinds, its fields, and the check of a raw number.
#![tactic(auto)]

mod base_cell;
mod bits;
mod cell;
pub mod inside;
mod kinds;
mod raw;
mod refusal;

pub use cell::Cell;
pub use kinds::{BaseCell, Digit, Resolution};
pub use raw::{check, check_flat};
pub use refusal::Refusal;
