// The digit walk (grid/algo.rs).
ghost use Rattle.std.specs.Prelude.{◌≡◌};
ghost use Rattle.walks.specs.Tables.{new_digit, adjustment};
ghost use Rattle.walks.specs.Walks.{walked_of, carry_of};

use index::inside::{get_direction, set_direction};
use index::{Cell, Digit, Resolution};
use plane::direction::Direction;
use plane::number::is_odd;

// Document 01 keeps the four tables.
static NEW_DIRECTION_II: [[u8; 7]; 7] = [
    [0, 1, 2, 3, 4, 5, 6],
    [1, 4, 3, 6, 5, 2, 0],
    [2, 3, 1, 4, 6, 0, 5],
    [3, 6, 4, 5, 0, 1, 2],
    [4, 5, 6, 0, 2, 3, 1],
    [5, 2, 0, 1, 3, 6, 4],
    [6, 0, 5, 2, 1, 4, 3],
];

static NEW_ADJUSTMENT_II: [[u8; 7]; 7] = [
    [0, 0, 0, 0, 0, 0, 0],
    [0, 1, 0, 1, 0, 5, 0],
    [0, 0, 2, 3, 0, 0, 2],
    [0, 1, 3, 3, 0, 0, 0],
    [0, 0, 0, 0, 4, 4, 6],
    [0, 5, 0, 0, 4, 5, 0],
    [0, 0, 2, 0, 6, 0, 6],
];

static NEW_DIRECTION_III: [[u8; 7]; 7] = [
    [0, 1, 2, 3, 4, 5, 6],
    [1, 2, 3, 4, 5, 6, 0],
    [2, 3, 4, 5, 6, 0, 1],
    [3, 4, 5, 6, 0, 1, 2],
    [4, 5, 6, 0, 1, 2, 3],
    [5, 6, 0, 1, 2, 3, 4],
    [6, 0, 1, 2, 3, 4, 5],
];

static NEW_ADJUSTMENT_III: [[u8; 7]; 7] = [
    [0, 0, 0, 0, 0, 0, 0],
    [0, 1, 0, 3, 0, 1, 0],
    [0, 0, 2, 2, 0, 0, 6],
    [0, 3, 2, 3, 0, 0, 0],
    [0, 0, 0, 0, 4, 5, 4],
    [0, 1, 0, 0, 5, 5, 0],
    [0, 0, 6, 0, 4, 0, 6],
];

// The new digit where a direction meets an old one, and the direction that goes on upward: two functions, since they are of two kinds.
fn new_digit(o: bool, old: Digit, way: Direction) -> Digit
    ensures { result ≡ new_digit o old way }
{
    let a = old.number() as usize;
    let b = way.value() as usize;
    let new = if o {
        NEW_DIRECTION_II[a][b]
    } else {
        NEW_DIRECTION_III[a][b]
    };
    Digit::new_unchecked(new as u64)
}

fn adjustment(o: bool, old: Digit, way: Direction) -> Direction
    ensures { result ≡ adjustment o old way }
{
    let a = old.number() as usize;
    let b = way.value() as usize;
    let on = if o {
        NEW_ADJUSTMENT_II[a][b]
    } else {
        NEW_ADJUSTMENT_III[a][b]
    };
    Direction::new_unchecked(on)
}

// The number with the new digits, and the carry: 0 if none, as document 01 has it.
#[derive(Clone, Copy, Debug, PartialEq, Eq, Hash)]
pub struct Walked {
    pub number: u64,
    pub carry: Direction,
}

// Digits change from the finest upward until the adjustment is 0.
pub fn walk(c: Cell, d: Direction) -> Walked
    ensures { (result.number ≡ walked_of c d) × (result.carry ≡ carry_of c d) }
{
    let mut n = c.number();
    let k = c.resolution().number();
    let mut way = d;
    for r in (1..=k).rev() {
        if way.value() == 0 {
            break;
        }
        let at = Resolution::new_unchecked(r);
        let old = Digit::new_unchecked(get_direction(n, at));
        let o = is_odd(r);
        n = set_direction(n, at, new_digit(o, old, way));
        way = adjustment(o, old, way);
    }
    Walked {
        number: n,
        carry: way,
    }
}
