// What the entries share: what they judge of the directions, counts and points handed in.
#![tactic(auto)]

// Public only because it crosses our crates' border.
pub mod judge;
