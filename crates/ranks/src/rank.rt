// Child at position, and position of child.
ghost use Rattle.std.specs.Prelude.{◌≡◌, false, ℕ, ◌-◌, ◌^◌, ◌≤◌, ◌<◌};
ghost use Rattle.index.specs.Layout.{res_of};
ghost use Rattle.index.specs.View.{octal};
ghost use Rattle.index.specs.Ancestor.{ancestor_of};
ghost use Rattle.index.specs.Told.{told};
ghost use Rattle.descent.specs.Descendants.{pentagon, count_of};
ghost use Rattle.descent.specs.Positions.{below, child_at, position_of, found_of};

use descent::{Descent, sevens};
use index::{Cell, Refusal, Resolution};

// The position p counted with the deleted ones: that of the same digits below a hexagon.
fn with_deleted(d: &Descent, p: u64) -> u64
    requires { p < count_of d.now.cell d.now.target }
    ensures { (octal (below (pentagon d.now.cell) (d.now.target - res_of d.now.cell) p) ≡ octal (below false 16 result)) × (result < 7 ^ 16) }
{
    let m = d.steps();
    if !d.cell().is_pentagon() || p == 0 {
        return p;
    }
    let mut deleted = (sevens(m) - 1) / 6;
    // No index is counted.
    while p <= 5 * (deleted / 7) {
        deleted /= 7;
    }
    p + deleted
}

// A position below a hexagon as sixteen digits with eight as their base: fields of eight, four and two digits are split, the upper half of
// each being a quotient by 2401, 49 and 7. Below 2401 (x * 1338) >> 16 is x / 49, below 49 (x * 37) >> 8 is x / 7.
#[tactic(auto, using(crate::proofs::Eights::digits))]
fn in_eights(p: u64) -> u64
    requires { p < 7 ^ 16 }
    ensures { result ≡ octal (below false 16 p) }
{
    let l = p % 5764801;
    let h = p / 5764801;
    let v2 = l + 1695 * (l / 2401) + (h + 1695 * (h / 2401)) * 0x100_0000;
    let e2 = (((v2 & 0o777700007777) * 1338) >> 16) & 0o7700000077;
    let o2 = ((((v2 >> 12) & 0o777700007777) * 1338) >> 16) & 0o7700000077;
    let v3 = v2 + 15 * (e2 + o2 * 4096);
    let e3 = (((v3 & 0o77007700770077) * 37) >> 8) & 0o7000700070007;
    let o3 = ((((v3 >> 6) & 0o77007700770077) * 37) >> 8) & 0o7000700070007;
    v3 + e3 + o3 * 64
}

pub fn child_at(d: Descent, p: u64) -> Cell
    requires { p < count_of d.cell d.target }
    ensures { result ≡ child_at d.cell d.target p }
{
    let q = with_deleted(&d, p);
    Cell::new_unchecked(d.first() + d.target().place() * in_eights(q))
}

// Sixteen digits with eight as their base, read with seven as the base: pairs of fields are joined, four times.
fn in_sevens(v: u64) -> u64
    requires { v < 2 ^ 48 }
    ensures { (p : ℕ) → p < 7 ^ 16 → v ≡ octal (below false 16 p) → result ≡ p }
{
    let h1 = (v >> 3) & 0o707070707070707;
    let v1 = v - h1;
    let h2 = (v1 >> 6) & 0o77007700770077;
    let v2 = v1 - 15 * h2;
    let h3 = (v2 >> 12) & 0o777700007777;
    let v3 = v2 - 1695 * h3;
    v3 % 0x100_0000 + 5764801 * (v3 >> 24)
}

// The position of y below its ancestor c; below a pentagon less what the deleted positions take. Inlined, since its callers read
// the kind and the resolution of c too.
#[inline]
pub fn rank_of(c: Cell, y: Cell) -> u64
    requires coarse { res_of c ≤ res_of y }
    requires owner { ancestor_of y (res_of c) ≡ c }
    ensures { result ≡ position_of c y }
{
    let fine = y.resolution().number();
    let m = fine - c.resolution().number();
    let v = (y.number() >> (3 * (15 - fine))) % Resolution::new_unchecked(15 - m).place();
    let p = in_sevens(v);
    if c.is_pentagon() {
        let z = u64::leading_zeros(v) as u64;
        // v has 64 - z bits, so (66 - z) / 3 digits.
        let taken = (sevens((66 - z) / 3) - 1) / 6;
        return p - taken;
    }
    p
}

// The position of y below c.
#[tactic(auto, unfolding(index::specs::Refusals::judged))]
pub fn position(c: Cell, y: Cell) -> Result<u64, Refusal>
    ensures { told result ≡ found_of c y }
{
    let own = c.resolution();
    if y.resolution() < own || y.ancestor(own) != c {
        return Err(Refusal::NotUnder);
    }
    Ok(rank_of(c, y))
}
