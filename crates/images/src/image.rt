// The images of a point of the plane (coord/ijk.rs): down and up by an aperture, a turn, a neighbour.
ghost use Rattle.std.specs.Prelude.{◌≡◌, ◌≤◌};
ghost use Rattle.plane.specs.Directions.{unit};
ghost use Rattle.plane.specs.Points as points;
ghost use Rattle.plane.specs.Ranges.{Within, Broad};
ghost use Rattle.plane.specs.Inside.{Weighs, weighed, beside};

use plane::direction::Direction;
use plane::ijk::{IJK, normalize, of_ij, to_ij};
use plane::number::{scaled, seventh};

// a-fold p, and q.
fn weighted(a: u8, p: IJK, q: IJK) -> IJK
    requires { Weighs 1000000000 a p q }
    ensures { result ≡ points.normal (weighed a p q) }
{
    let i = p.i;
    let j = p.j;
    let k = p.k;
    let x = q.i;
    let y = q.j;
    let z = q.k;
    normalize(IJK {
        i: scaled(a, i, x),
        j: scaled(a, j, y),
        k: scaled(a, k, z),
    })
}

// Each component's place taken by the next one, or by the one before.
fn shifted(p: IJK, ccw: bool) -> IJK
    ensures { result ≡ beside ccw p }
{
    let i = p.i;
    let j = p.j;
    let k = p.k;
    if ccw {
        IJK { i: j, j: k, k: i }
    } else {
        IJK { i: k, j: i, k: j }
    }
}

// The three images have one shape: a-fold the point, and its components moved by one place.
// The bound stands in each: a type for it would be no plainer, since an entry has it of its range and a centre of a bound of its own.
fn image(a: u8, p: IJK, ccw: bool) -> IJK
    requires { (a ≤ 3) × (Within 250000000 p) }
    ensures { result ≡ points.normal (weighed a p (beside ccw p)) }
{
    weighted(a, p, shifted(p, ccw))
}

// Down by aperture 7.
#[tactic(auto, using(crate::proofs::Rows::down7_shape))]
pub fn down_aperture7(p: IJK, ccw: bool) -> IJK
    requires { Within 250000000 p }
    ensures { result ≡ points.normal (points.down7 ccw p) }
{
    image(3, p, ccw)
}

// Down by aperture 3.
#[tactic(auto, using(crate::proofs::Rows::down3_shape))]
pub fn down_aperture3(p: IJK, ccw: bool) -> IJK
    requires { Within 250000000 p }
    ensures { result ≡ points.normal (points.down3 ccw p) }
{
    image(2, p, ccw)
}

// Turned by 60 degrees.
#[tactic(auto, using(crate::proofs::Rows::turned_shape))]
pub fn rotate60(p: IJK, ccw: bool) -> IJK
    requires { Within 250000000 p }
    ensures { result ≡ points.normal (points.turned ccw p) }
{
    image(1, p, !ccw)
}

// Up by aperture 7.
pub fn up_aperture7(p: IJK, ccw: bool) -> IJK
    requires { Broad 250000000 p }
    ensures { result ≡ points.up7 ccw p }
{
    let q = to_ij(p);
    let i = q.i;
    let j = q.j;
    if ccw {
        of_ij(seventh(3, i, -j), seventh(2, j, i))
    } else {
        of_ij(seventh(2, i, j), seventh(3, j, -i))
    }
}

// The point moved by a direction's unit vector.
#[tactic(auto, using(crate::proofs::Rows::once))]
pub fn neighbor(p: IJK, d: Direction) -> IJK
    requires { Within 999999999 p }
    ensures { result ≡ points.normal (points.plus p (unit d)) }
{
    weighted(1, p, d.coordinate())
}
