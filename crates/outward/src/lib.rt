// What the C exports hand out, made of what entries answer, and the cursor as C keeps it.
#![tactic(auto)]

mod answers;
mod cursors;

pub use answers::{RgChecked, RgNumber, RgPair, RgPoint, RgStepped, RgWalked, stepped_out};
pub use cursors::{cursor_in, given_out, started_out};
