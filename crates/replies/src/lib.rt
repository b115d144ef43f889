// Answers as text, on their way to standard output.
#![tactic(auto)]

pub mod lists;
pub mod out;
pub mod say;
