// The cursor over the descendants of a cell (index/iterator/children.rs).
#![tactic(auto)]

mod children;
mod legal;

pub use children::{Cursor, Given, fresh};
