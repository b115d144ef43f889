// The requests, each by its name and its words, and what it is answered.
#![tactic(auto)]

mod answers;
mod cells;
mod points;
mod senses;

pub use answers::Answer;
use words::Line;

// What a line that is read whole is answered; `None` where it is malformed. No two forms have both name and number of
// words in common, so that the groups may be tried in any order.
pub fn answer(line: &Line) -> Option<Answer> {
    let (name, words) = line.words().split_first()?;
    let name = name.text();
    cells::answer(name, words)
        .or_else(|| senses::answer(name, words))
        .or_else(|| points::answer(name, words))
}
