// Lists of cells. They are made where they are written, since they need room.
use crate::out::Out;
use crate::say::{Cells, Told};
use std::fmt::Write;

// The most elements that a request may have room for, and what they hold before it.
const ROOM: usize = 8192;

const UNTOUCHED: u64 = 0xeeee_eeee_eeee_eeee;

// `Out` tells of no error, so that there is none to hand on.
pub fn list(out: &mut Out, raw: u64, target: u32) {
    let mut cells = [UNTOUCHED; ROOM];
    let _ = match hexagons::list(raw, target, &mut cells) {
        Ok(n) => write!(out, "{}", Cells(&cells[..ROOM.min(n as usize)])),
        Err(refusal) => write!(out, "{refusal}"),
    };
}

// The answer, and every element afterwards; malformed where so many have no room. A short listing has no target.
pub fn list_in_room(out: &mut Out, raw: u64, target: Option<u32>, room: u32) {
    let mut cells = [UNTOUCHED; ROOM];
    let Some(cells) = cells.get_mut(..room as usize) else {
        let _ = write!(out, "input");
        return;
    };
    let told = match target {
        Some(target) => hexagons::list(raw, target, cells),
        None => hexagons::list_short(raw, cells),
    };
    let _ = write!(out, "{} : {}", Told(told), Cells(cells));
}
