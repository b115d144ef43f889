// A cell and a resolution no coarser than its own, between which descendants are counted and listed (index/iterator/children.rs).
ghost use Rattle.std.specs.Prelude.{◌≡◌, ◌-◌, ◌≤◌};
ghost use Rattle.index.specs.Layout.{Valid, res_of};
ghost use Rattle.descent.specs.Descendants.{count_of};
ghost use Rattle.descent.specs.Positions.{child_at};

use crate::sevens;
use index::inside::ONE_RESOLUTION;
use index::{Cell, Resolution};

// Contracts read the fields, code calls the methods. These lend: the borrow checker takes a struct with such fields as moved, not copied.
#[derive(Clone, Copy, Debug, PartialEq, Eq, Hash)]
pub struct Descent {
    pub cell: Cell,
    pub target: Resolution,
    pub ghost finer: { res_of cell ≤ target },
}

impl Descent {
    pub fn new(cell: Cell, target: Resolution) -> Self
        requires { res_of cell ≤ target }
        ensures cell { result.cell ≡ cell }
        ensures target { result.target ≡ target }
    {
        Descent { cell, target }
    }

    pub fn cell(&self) -> Cell
        ensures { result ≡ self.now.cell }
    {
        self.cell
    }

    pub fn target(&self) -> Resolution
        ensures { result ≡ self.now.target }
    {
        self.target
    }

    // The resolutions between the two.
    pub fn steps(&self) -> u64
        ensures value { result ≡ self.now.target - res_of self.now.cell }
        ensures bound { result ≤ 15 }
    {
        self.target.number() - self.cell.resolution().number()
    }

    // How many descendants the cell has.
    #[tactic(auto, using(crate::proofs::Counts::sevens_pos, crate::proofs::Counts::sevens_small))]
    pub fn count(&self) -> u64
        ensures { result ≡ count_of self.now.cell self.now.target }
    {
        let s = sevens(self.steps());
        if self.cell.is_pentagon() {
            return 1 + 5 * (s - 1) / 6;
        }
        s
    }

    // The first child: 0 in the places between the resolutions.
    pub fn first(&self) -> u64
        ensures value { result ≡ child_at self.now.cell self.now.target 0 }
        ensures valid { Valid self.now.cell }
        ensures bound { self.now.target ≤ 15 }
    {
        let n = self.cell.number();
        let unit = self.target.place();
        let span = self.cell.resolution().place();
        let cleared = n - (span - unit);
        cleared + self.steps() * ONE_RESOLUTION
    }
}
