// The descendants of a cell: how many, and the first.
#![tactic(auto)]

mod descent;
mod powers;

pub use descent::Descent;
pub use powers::sevens;
