// Requests that begin with a cell or a cursor.
use crate::answers::Answer;
use hexagons::Cursor;
use words::Word;

pub fn answer(name: &[u8], words: &[Word]) -> Option<Answer> {
    Some(match (name, words) {
        (b"check", [h]) => Answer::Checked(hexagons::check(h.hexadecimal()?)),
        (b"count", [h, t]) => Answer::Number(hexagons::count(h.hexadecimal()?, t.natural32()?)),
        (b"list", [h, t]) => Answer::List(h.hexadecimal()?, t.natural32()?),
        (b"list", [h, t, room]) => {
            Answer::ListInRoom(h.hexadecimal()?, Some(t.natural32()?), room.natural32()?)
        }
        (b"short", [h, room]) => Answer::ListInRoom(h.hexadecimal()?, None, room.natural32()?),
        (b"childat", [h, t, p]) => {
            let (cell, target) = (h.hexadecimal()?, t.natural32()?);
            Answer::Cell(hexagons::child_at(cell, target, p.natural64()?))
        }
        (b"position", [h, g]) => {
            Answer::Number(hexagons::position(h.hexadecimal()?, g.hexadecimal()?))
        }
        (b"ancestor", [h, r]) => Answer::Cell(hexagons::ancestor(h.hexadecimal()?, r.natural32()?)),
        (b"cursor", [h, t]) => Answer::Started(hexagons::cursor(h.hexadecimal()?, t.natural32()?)),
        (b"next", [own, target, h, skip, left]) => Answer::Given(hexagons::next(Cursor {
            own: own.natural32()?,
            target: target.natural32()?,
            number: h.hexadecimal()?,
            skip: skip.integer32()?,
            left: left.natural64()?,
        })),
        (b"centre", [h]) => Answer::Point(hexagons::centre(h.hexadecimal()?)),
        (b"walk", [h, d]) => Answer::Walked(hexagons::walk(h.hexadecimal()?, d.natural32()?)),
        (b"step", [h, d]) => Answer::Stepped(hexagons::step(h.hexadecimal()?, d.natural32()?)),
        _ => return None,
    })
}
