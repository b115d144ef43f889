// Reading requests: a line, its words and the numbers that they spell, byte by byte in constant space.
#![tactic(auto)]

mod line;
mod word;

pub use line::Line;
pub use word::Word;
