// A checked cell.
ghost use Rattle.std.specs.Prelude.{◌≡◌, ◌≤◌, ◌&&◌, ◌==◌};
ghost use Rattle.index.specs.Layout.{Valid, res_of, base_of, first_of, is_pentagonal};
ghost use Rattle.index.specs.Ancestor.{ancestor_of};

use crate::Resolution;
use crate::base_cell::is_pentagon;
use crate::bits::{DIGITS_END, ONE_RESOLUTION, SEVENS, get_base_cell, get_resolution};
use std::marker::Model;

// A number that the check let through.
#[derive(Clone, Copy, Debug, PartialEq, Eq, PartialOrd, Ord, Hash)]
pub struct Cell(u64);

impl Model for Cell {
    ghost use Rattle.std.specs.Prelude.{ℕ};
    ghost use Rattle.index.specs.Layout.{Valid};

    ghost Value = { ℕ };

    ghost view = { λ c. c.0 };

    ghost invariant = { λ c. Valid c.0 };

    ghost inverse = { λ n. record { 0 = n } };
}

impl Cell {
    pub fn new_unchecked(n: u64) -> Self
        requires { Valid n }
        ensures { result ≡ n }
    {
        Cell(n)
    }

    pub fn number(self) -> u64
        ensures value { result ≡ self }
        ensures valid { Valid self }
    {
        self.0
    }

    pub fn resolution(self) -> Resolution
        ensures { result ≡ res_of self }
    {
        get_resolution(self.0)
    }

    // Whether the cell lies in a pentagon base cell.
    pub fn in_pentagon(self) -> bool
        ensures { result ≡ is_pentagonal (base_of self) }
    {
        is_pentagon(get_base_cell(self.0))
    }

    // A pentagon's used digits are 0 and the unused 7. That test stands first: the compiler may branch on each of the two, and a branch on the base cell alone is
    // often mispredicted.
    pub fn is_pentagon(self) -> bool
        ensures { result ≡ (is_pentagonal (base_of self) && first_of self (res_of self) == 0) }
    {
        let n = self.number();
        let own = get_resolution(n).number();
        (n % DIGITS_END == SEVENS >> (3 * own)) & self.in_pentagon()
    }

    pub fn ancestor(self, t: Resolution) -> Cell
        requires { t ≤ res_of self }
        ensures { result ≡ ancestor_of self t }
    {
        let n = self.number();
        let own = get_resolution(n).number();
        let u = t.place();
        let m = own - t.number();
        let cut = n - n % u;
        let filled = cut + (u - 1);
        let above = m * ONE_RESOLUTION;
        Cell(filled - above)
    }
}
