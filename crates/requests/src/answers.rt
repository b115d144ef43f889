// What a line is answered: the library's answer, or a list to be made where there is room for it.
use hexagons::{Cursor, Given, IJ, IJK, Refusal, Stepped, Walked};

#[derive(Clone, Copy)]
pub enum Answer {
    Checked(Result<(), Refusal>),
    Number(Result<u64, Refusal>),
    // the cell and the target
    List(u64, u32),
    // the cell, the target, which a short listing has none of, and the room
    ListInRoom(u64, Option<u32>, u32),
    Cell(Result<u64, Refusal>),
    Point(Result<IJK, Refusal>),
    Pair(Result<IJ, Refusal>),
    Truth(Result<bool, Refusal>),
    Started(Result<Cursor, Refusal>),
    Given(Given),
    Walked(Result<Walked, Refusal>),
    Stepped(Result<Stepped, Refusal>),
}
