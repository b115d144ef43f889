// Which cursors calls of this library could have made.
ghost use Rattle.std.specs.Prelude.{◌≡◌, ◌≤◌};
ghost use Rattle.index.specs.View.{used};
ghost use Rattle.children.specs.Skips.{lead};
ghost use Rattle.children.specs.Cursors.{legal};

use crate::Cursor;
use crate::children::skip_count;
use descent::Descent;
use index::inside::DIGITS_END;
use index::{Cell, Resolution, check};
use ranks::rank_of;

// How many of the digits 1 to r come before the first that is not 0.
fn leading(y: Cell, r: Resolution) -> u64
    ensures value { result ≡ lead (used y r) }
    ensures bound { result ≤ 15 }
{
    let k = r.number();
    let v = (y.number() % DIGITS_END) >> (3 * (15 - k));
    let z = u64::leading_zeros(v) as u64;
    k - (66 - z) / 3
}

pub(crate) fn is_legal(cursor: Cursor) -> bool
    ensures { result ≡ legal cursor }
{
    let Ok(y) = check(cursor.number) else {
        return false;
    };
    let fine = y.resolution();
    let target = fine.number();
    let own = cursor.own as u64;
    if target != cursor.target as u64 || target < own {
        return false;
    }
    let coarse = Resolution::new_unchecked(own);
    let owner = y.ancestor(coarse);
    let total = Descent::new(owner, fine).count();
    let p = rank_of(owner, y);
    // The last child stays when none is left.
    total - p == cursor.left.max(1) && cursor.skip == skip_count(owner, leading(y, fine))
}
