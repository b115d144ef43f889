// Centres of cells.
#![tactic(auto)]

pub mod centre;
