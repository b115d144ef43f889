// Points of the plane (coord/ijk.rs).
ghost use Rattle.std.specs.Prelude.{◌≡◌, ◌&&◌, ◌<◌, ◌≤◌, nat_abs};
ghost use Rattle.std.specs.Int.{w32};
ghost use Rattle.std.proofs.Common.{SFits};
ghost use Rattle.plane.specs.Directions.{unit};
ghost use Rattle.plane.specs.Points as points;
ghost use Rattle.plane.specs.Ranges.{point_in_range, Within, Broad};

use crate::direction::Direction;
use crate::number::{in_range, less, scaled};

// A point of the plane.
#[derive(Clone, Copy, Debug, PartialEq, Eq, Hash)]
pub struct IJK {
    pub i: i32,
    pub j: i32,
    pub k: i32,
}

// The IJ form of a point.
#[derive(Clone, Copy, Debug, PartialEq, Eq, Hash)]
pub struct IJ {
    pub i: i32,
    pub j: i32,
}

// Whether each coordinate is within the entry range.
pub fn point_in_range(p: IJK) -> bool
    ensures { result ≡ point_in_range p }
{
    in_range(p.i) && in_range(p.j) && in_range(p.k)
}

// The same point in normal form. The bound stands here and in two functions that pass it on: a type for it would be no plainer, since each caller
// has it of a bound of its own, and would make the value for one call.
pub fn normalize(p: IJK) -> IJK
    requires { Within 1000000000 p }
    ensures { result ≡ points.normal p }
{
    let i = p.i;
    let j = p.j;
    let k = p.k;
    let m = i.min(j.min(k));
    IJK {
        i: i - m,
        j: j - m,
        k: k - m,
    }
}

// Whether two triples mean one point.
pub fn same_point(p: IJK, q: IJK) -> bool
    requires { (Within 1000000000 p) × (Within 1000000000 q) }
    ensures { result ≡ points.same p q }
{
    normalize(p) == normalize(q)
}

// The difference of two points, not in normal form.
pub fn minus(p: IJK, q: IJK) -> IJK
    requires { (Within 500000000 p) × (Within 500000000 q) }
    ensures { result ≡ points.minus p q }
{
    let a = p.i;
    let b = p.j;
    let c = p.k;
    let d = q.i;
    let e = q.j;
    let f = q.k;
    IJK {
        i: less(a, d),
        j: less(b, e),
        k: less(c, f),
    }
}

// The largest component.
fn largest(p: IJK) -> i32
    ensures { (result ≡ points.largest p) × (SFits w32 result) }
{
    let i = p.i;
    let j = p.j;
    let k = p.k;
    i.max(j.max(k))
}

// How far apart two points are.
pub fn distance(p: IJK, q: IJK) -> i32
    requires { (Within 500000000 p) × (Within 500000000 q) }
    ensures { result ≡ points.distance p q }
{
    largest(normalize(minus(p, q)))
}

// The IJ form.
pub fn to_ij(p: IJK) -> IJ
    requires { Broad 2000000000 p }
    ensures { result ≡ points.ij p }
{
    let i = p.i;
    let j = p.j;
    let k = p.k;
    IJ { i: i - k, j: j - k }
}

// The point of an IJ pair.
pub fn of_ij(i: i32, j: i32) -> IJK
    requires { (nat_abs i ≤ 1000000000) × (nat_abs j ≤ 1000000000) }
    ensures { result ≡ points.of_ij (points.pair i j) }
{
    normalize(IJK { i, j, k: 0 })
}

// 4i + 2j + k of a unit vector.
fn direction_of_unit(p: IJK) -> Direction
    requires { (points.value p < 7) × (p ≡ unit (points.value p)) }
    ensures { result ≡ points.value p }
{
    let i = p.i;
    let j = p.j;
    let k = p.k;
    Direction::new_unchecked(scaled(4, i, scaled(2, j, k)) as u8)
}

// The direction of a point, where it is a unit vector or zero.
pub fn direction_of(p: IJK) -> Option<Direction>
    requires { Within 1000000000 p }
    ensures { result ≡ points.direction_of p }
{
    let n = normalize(p);
    if largest(n) <= 1 {
        Some(direction_of_unit(n))
    } else {
        None
    }
}
