// Centres of cells, and reading them back.
ghost use Rattle.std.specs.Prelude.{◌≡◌, ◌+◌, ◌-◌, ◌*◌, ◌^◌};
ghost use Rattle.plane.specs.Directions.{unit};
ghost use Rattle.plane.specs.Points.{Same, plus, down7, up7};
ghost use Rattle.plane.specs.Ranges.{Within, Broad};
ghost use Rattle.centres.specs.Centres.{centre_of, Reads, read_told};

use index::inside::{ONE_RESOLUTION, get_direction, set_direction};
use index::{Cell, Digit, Resolution};
use plane::direction::Direction;
use plane::ijk;
use plane::ijk::IJK;
use plane::number::is_odd;

const ORIGIN: IJK = IJK { i: 0, j: 0, k: 0 };

// Resolution 0 in base cell 0: each digit is 7.
const COARSEST: u64 = 0x0800_1fff_ffff_ffff;

// The centre of a cell's used digits, whatever the base cell.
pub fn centre(c: Cell) -> IJK
    ensures { result ≡ centre_of c }
{
    let n = c.number();
    let k = c.resolution().number();
    let mut p = ORIGIN;
    for r in 1..=k {
        let d = get_direction(n, Resolution::new_unchecked(r));
        let o = is_odd(r);
        let q = images::down_aperture7(p, o);
        p = images::neighbor(q, Direction::new_unchecked(d as u8));
    }
    p
}

// A resolution in base cell 0, with no digit set.
fn unset(length: Resolution) -> u64
    ensures { result ≡ 2 ^ 59 + length * 2 ^ 52 + 0 * 2 ^ 45 + (2 ^ 45 - 1) }
{
    COARSEST + length.number() * ONE_RESOLUTION
}

// The digit that is left of q over the down image of its up.
fn finest(q: IJK, up: IJK, o: bool) -> Direction
    requires { (Broad 200000000 q) × (Within 400000000 q) × (up ≡ up7 o q) }
    ensures { Same q (plus (down7 o up) (unit result)) }
{
    let rest = ijk::minus(q, images::down_aperture7(up, o));
    ijk::direction_of(rest).unwrap()
}

// The string of a length whose centre is p, as the cell of base cell 0 with those digits.
pub fn read_back(length: Resolution, p: IJK) -> Option<Cell>
    requires { Within 100000000 p }
    ensures { Reads length p (read_told result) }
{
    let mut n = unset(length);
    let mut q = ijk::normalize(p);
    for r in (1..=length.number()).rev() {
        let o = is_odd(r);
        let up = images::up_aperture7(q, o);
        let d = finest(q, up, o).value();
        n = set_direction(
            n,
            Resolution::new_unchecked(r),
            Digit::new_unchecked(d as u64),
        );
        q = up;
    }
    let y = Cell::new_unchecked(n);
    let is_origin = ijk::same_point(q, ORIGIN);
    is_origin.then_some(y)
}
