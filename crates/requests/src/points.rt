// Requests of directions and points.
use crate::answers::Answer;
use hexagons::{IJ, IJK};
use words::Word;

pub fn answer(name: &[u8], words: &[Word]) -> Option<Answer> {
    Some(match (name, words) {
        (b"unit", [d]) => Answer::Point(hexagons::unit(d.natural32()?)),
        (b"neighbour", [i, j, k, d]) => {
            Answer::Point(hexagons::neighbour(point(i, j, k)?, d.natural32()?))
        }
        (b"normalise", [i, j, k]) => Answer::Point(hexagons::normalise(point(i, j, k)?)),
        (b"ij", [i, j, k]) => Answer::Pair(hexagons::to_ij(point(i, j, k)?)),
        (b"fromij", [i, j]) => Answer::Point(hexagons::from_ij(IJ {
            i: i.integer32()?,
            j: j.integer32()?,
        })),
        (b"dirof", [i, j, k]) => Answer::Number(hexagons::direction_of(point(i, j, k)?)),
        (b"same", [i, j, k, l, m, n]) => {
            Answer::Truth(hexagons::same_point(point(i, j, k)?, point(l, m, n)?))
        }
        (b"distance", [i, j, k, l, m, n]) => {
            Answer::Number(hexagons::distance(point(i, j, k)?, point(l, m, n)?))
        }
        (b"readback", [length, i, j, k]) => {
            Answer::Cell(hexagons::read_back(length.natural32()?, point(i, j, k)?))
        }
        _ => return None,
    })
}

pub fn point(i: &Word, j: &Word, k: &Word) -> Option<IJK> {
    Some(IJK {
        i: i.integer32()?,
        j: j.integer32()?,
        k: k.integer32()?,
    })
}
