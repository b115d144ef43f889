// Port of index/iterator/children.rs: the cursor goes from child to child on the packed number.
ghost use Rattle.std.specs.Prelude.{◌≡◌, cond, ◌≤◌, pos, negsuc};
ghost use Rattle.index.specs.Layout.{res_of};
ghost use Rattle.descent.specs.Descendants.{pentagon};
ghost use Rattle.children.specs.Skips.{Inner, Following};
ghost use Rattle.children.specs.Cursors.{cursor_after, next_of};

use crate::legal::is_legal;
use descent::Descent;
use index::inside::get_direction;
use index::{Cell, Resolution};

// The skip below a cell where the digits 1 to z are 0 and no more: the digit 1 of resolution z is the next to be skipped.
pub(crate) fn skip_count(cell: Cell, z: u64) -> i32
    requires { z ≤ 15 }
    ensures { result ≡ cond (pentagon cell) (pos z) (negsuc 0) }
{
    if cell.is_pentagon() { z as i32 } else { -1 }
}

// As document 01 has it: the skip is -1 where no digit 1 is skipped.
#[derive(Clone, Copy, Debug, PartialEq, Eq)]
pub struct Cursor {
    pub own: u32,
    pub target: u32,
    pub number: u64,
    pub skip: i32,
    pub left: u64,
}

// What a call gives, as document 01 has it. The cursor handed back is the following one, or the same where there is no child.
#[derive(Clone, Copy, Debug, PartialEq, Eq)]
pub enum Given {
    Child(u64, Cursor),
    Done(Cursor),
    Refused(Cursor),
}

pub fn fresh(d: Descent) -> Cursor
    ensures { result ≡ cursor_after d.cell d.target 0 }
{
    let cell = d.cell();
    let own = cell.resolution().number();
    let target = d.target().number();
    Cursor {
        own: own as u32,
        target: target as u32,
        number: d.first(),
        skip: skip_count(cell, target),
        left: d.count(),
    }
}

impl Cursor {
    // The number of the next child, and the resolution where the digit 1 is skipped then, or -1.
    fn advance(self) -> (u64, i32)
        requires { Inner self.number self.skip self.own × (self.target ≡ res_of self.number) }
        ensures { Following self.number self.own result.0 result.1 }
    {
        let mut bits = self.number;
        for r in (self.own as u64 + 1..=self.target as u64).rev() {
            let at = Resolution::new_unchecked(r);
            let one = at.place();
            bits += one;
            let d = get_direction(bits, at);
            if d == 1 && self.skip == r as i32 {
                return (bits + one, self.skip - 1);
            }
            if d < 7 {
                return (bits, self.skip);
            }
            bits -= 7 * one;
        }
        (bits, self.skip)
    }

    pub fn next(self) -> Given
        ensures { result ≡ next_of self }
    {
        if !is_legal(self) {
            return Given::Refused(self);
        }
        match self.left {
            0 => Given::Done(self),
            1 => Given::Child(self.number, Cursor { left: 0, ..self }),
            left => {
                let (number, skip) = self.advance();
                let following = Cursor {
                    number,
                    skip,
                    left: left - 1,
                    ..self
                };
                Given::Child(self.number, following)
            }
        }
    }
}
