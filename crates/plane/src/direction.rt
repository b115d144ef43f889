// Directions (direction.rs).
ghost use Rattle.std.specs.Prelude.{◌≡◌, true, false, cond, ◌<◌};
ghost use Rattle.plane.specs.Directions.{unit, turn, turns};

use crate::ijk::IJK;
use crate::rotation::Rotation;
use std::marker::Model;

// A direction, 0 to 6.
#[derive(Clone, Copy, Debug, PartialEq, Eq, PartialOrd, Ord, Hash)]
pub struct Direction(u8);

impl Model for Direction {
    ghost use Rattle.std.specs.Prelude.{ℕ, ◌<◌};

    ghost Value = { ℕ };

    ghost view = { λ d. d.0 };

    ghost invariant = { λ d. d.0 < 7 };

    ghost inverse = { λ n. record { 0 = n } };
}

impl Direction {
    pub fn new_unchecked(value: u8) -> Self
        requires { value < 7 }
        ensures { result ≡ value }
    {
        Direction(value)
    }

    pub fn value(self) -> u8
        ensures value { result ≡ self }
        ensures below { self < 7 }
    {
        self.0
    }

    // The unit vector.
    pub fn coordinate(self) -> IJK
        ensures { result ≡ unit self }
    {
        let v = self.0;
        IJK {
            i: (v / 4) as i32,
            j: (v / 2 % 2) as i32,
            k: (v % 2) as i32,
        }
    }
}

// The next number counter-clockwise, on bare numbers, for the match. The two senses are two functions for speed: one choice of twelve becomes a jump table, and a turn
// by a count then takes 17 ns where it takes 8.
fn next_ccw(v: u8) -> u8
    requires { v < 7 }
    ensures { result ≡ turn true v }
{
    match v {
        1 => 5,
        2 => 3,
        3 => 1,
        4 => 6,
        5 => 4,
        6 => 2,
        _ => 0,
    }
}

// The next number clockwise.
fn next_cw(v: u8) -> u8
    requires { v < 7 }
    ensures { result ≡ turn false v }
{
    match v {
        1 => 3,
        2 => 6,
        3 => 2,
        4 => 5,
        5 => 1,
        6 => 4,
        _ => 0,
    }
}

impl Direction {
    // Turned once, by 60 degrees.
    pub fn rotate60_once(self, ccw: bool) -> Self
        ensures { result ≡ turn ccw self }
    {
        let v = self.0;
        if ccw {
            Direction(next_ccw(v))
        } else {
            Direction(next_cw(v))
        }
    }

    // Turned once, or not.
    fn rotate60_where(self, turns: bool, ccw: bool) -> Self
        ensures { result ≡ cond turns (turn ccw self) self }
    {
        let turned = self.rotate60_once(ccw);
        if turns { turned } else { self }
    }

    // Turned by a count, with no branch, since no count foretells the next.
    pub fn rotate60(self, by: Rotation) -> Self
        ensures { result ≡ turns by.0 by.1 self }
    {
        let ccw = by.is_ccw();
        let count = by.count();
        let one = self.rotate60_where(0 < count, ccw);
        let two = one.rotate60_where(1 < count, ccw);
        let three = two.rotate60_where(2 < count, ccw);
        let four = three.rotate60_where(3 < count, ccw);
        four.rotate60_where(4 < count, ccw)
    }
}
