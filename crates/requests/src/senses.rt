// Requests that begin with a sense of turning.
use crate::answers::Answer;
use crate::points::point;
use words::Word;

pub fn answer(name: &[u8], words: &[Word]) -> Option<Answer> {
    let (sense, words) = words.split_first()?;
    let ccw = match sense.text() {
        b"ccw" => true,
        b"cw" => false,
        _ => return None,
    };
    Some(match (name, words) {
        (b"turn", [h, n]) => Answer::Cell(hexagons::turn(h.hexadecimal()?, n.natural32()?, ccw)),
        (b"pentturn", [h]) => Answer::Cell(hexagons::pentagon_turn(h.hexadecimal()?, ccw)),
        (b"drot", [d, n]) => {
            Answer::Number(hexagons::direction_turn(d.natural32()?, n.natural32()?, ccw))
        }
        (b"down7", [i, j, k]) => Answer::Point(hexagons::down7(point(i, j, k)?, ccw)),
        (b"down3", [i, j, k]) => Answer::Point(hexagons::down3(point(i, j, k)?, ccw)),
        (b"up7", [i, j, k]) => Answer::Point(hexagons::up7(point(i, j, k)?, ccw)),
        (b"turnpoint", [i, j, k]) => Answer::Point(hexagons::point_turn(point(i, j, k)?, ccw)),
        _ => return None,
    })
}
