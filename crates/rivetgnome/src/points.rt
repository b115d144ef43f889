// Exports on directions and points. The C interface: a point is loose numbers, and each sense of turning has a name.
ghost use Rattle.std.specs.Prelude.{◌≡◌, true, false};
ghost use Rattle.plane.specs.Directions.{triple};
ghost use Rattle.plane.specs.Points.{pair};
ghost use Rattle.point_entries.specs.Points.{unit_of, direction_turn_of, normalise_of, neighbour_of, same_of, distance_of, to_ij_of, from_ij_of, down7_of, down3_of, point_turn_of, up7_of, direction_of_point};
ghost use Rattle.outward.specs.Exports.{number_out, truth_out, point_out, pair_out};

use hexagons::{IJ, IJK};
use outward::{RgNumber, RgPair, RgPoint};

#[unsafe(no_mangle)]
pub extern "C" fn rg_unit(direction: u32) -> RgPoint
    ensures { result ≡ point_out (unit_of direction) }
{
    hexagons::unit(direction).into()
}

#[unsafe(no_mangle)]
pub extern "C" fn rg_direction_turn_ccw(direction: u32, count: u32) -> RgNumber
    ensures { result ≡ number_out (direction_turn_of true direction count) }
{
    hexagons::direction_turn(direction, count, true).into()
}

#[unsafe(no_mangle)]
pub extern "C" fn rg_direction_turn_cw(direction: u32, count: u32) -> RgNumber
    ensures { result ≡ number_out (direction_turn_of false direction count) }
{
    hexagons::direction_turn(direction, count, false).into()
}

#[unsafe(no_mangle)]
pub extern "C" fn rg_normalise(i: i32, j: i32, k: i32) -> RgPoint
    ensures { result ≡ point_out (normalise_of (triple i j k)) }
{
    hexagons::normalise(IJK { i, j, k }).into()
}

#[unsafe(no_mangle)]
pub extern "C" fn rg_neighbour(i: i32, j: i32, k: i32, direction: u32) -> RgPoint
    ensures { result ≡ point_out (neighbour_of (triple i j k) direction) }
{
    hexagons::neighbour(IJK { i, j, k }, direction).into()
}

#[unsafe(no_mangle)]
pub extern "C" fn rg_same_point(i: i32, j: i32, k: i32, l: i32, m: i32, n: i32) -> RgNumber
    ensures { result ≡ truth_out (same_of (triple i j k) (triple l m n)) }
{
    hexagons::same_point(IJK { i, j, k }, IJK { i: l, j: m, k: n }).into()
}

#[unsafe(no_mangle)]
pub extern "C" fn rg_distance(i: i32, j: i32, k: i32, l: i32, m: i32, n: i32) -> RgNumber
    ensures { result ≡ number_out (distance_of (triple i j k) (triple l m n)) }
{
    hexagons::distance(IJK { i, j, k }, IJK { i: l, j: m, k: n }).into()
}

#[unsafe(no_mangle)]
pub extern "C" fn rg_to_ij(i: i32, j: i32, k: i32) -> RgPair
    ensures { result ≡ pair_out (to_ij_of (triple i j k)) }
{
    hexagons::to_ij(IJK { i, j, k }).into()
}

#[unsafe(no_mangle)]
pub extern "C" fn rg_from_ij(i: i32, j: i32) -> RgPoint
    ensures { result ≡ point_out (from_ij_of (pair i j)) }
{
    hexagons::from_ij(IJ { i, j }).into()
}

#[unsafe(no_mangle)]
pub extern "C" fn rg_down7_ccw(i: i32, j: i32, k: i32) -> RgPoint
    ensures { result ≡ point_out (down7_of true (triple i j k)) }
{
    hexagons::down7(IJK { i, j, k }, true).into()
}

#[unsafe(no_mangle)]
pub extern "C" fn rg_down7_cw(i: i32, j: i32, k: i32) -> RgPoint
    ensures { result ≡ point_out (down7_of false (triple i j k)) }
{
    hexagons::down7(IJK { i, j, k }, false).into()
}

#[unsafe(no_mangle)]
pub extern "C" fn rg_down3_ccw(i: i32, j: i32, k: i32) -> RgPoint
    ensures { result ≡ point_out (down3_of true (triple i j k)) }
{
    hexagons::down3(IJK { i, j, k }, true).into()
}

#[unsafe(no_mangle)]
pub extern "C" fn rg_down3_cw(i: i32, j: i32, k: i32) -> RgPoint
    ensures { result ≡ point_out (down3_of false (triple i j k)) }
{
    hexagons::down3(IJK { i, j, k }, false).into()
}

#[unsafe(no_mangle)]
pub extern "C" fn rg_point_turn_ccw(i: i32, j: i32, k: i32) -> RgPoint
    ensures { result ≡ point_out (point_turn_of true (triple i j k)) }
{
    hexagons::point_turn(IJK { i, j, k }, true).into()
}

#[unsafe(no_mangle)]
pub extern "C" fn rg_point_turn_cw(i: i32, j: i32, k: i32) -> RgPoint
    ensures { result ≡ point_out (point_turn_of false (triple i j k)) }
{
    hexagons::point_turn(IJK { i, j, k }, false).into()
}

#[unsafe(no_mangle)]
pub extern "C" fn rg_up7_ccw(i: i32, j: i32, k: i32) -> RgPoint
    ensures { result ≡ point_out (up7_of true (triple i j k)) }
{
    hexagons::up7(IJK { i, j, k }, true).into()
}

#[unsafe(no_mangle)]
pub extern "C" fn rg_up7_cw(i: i32, j: i32, k: i32) -> RgPoint
    ensures { result ≡ point_out (up7_of false (triple i j k)) }
{
    hexagons::up7(IJK { i, j, k }, false).into()
}

#[unsafe(no_mangle)]
pub extern "C" fn rg_direction_of(i: i32, j: i32, k: i32) -> RgNumber
    ensures { result ≡ number_out (direction_of_point (triple i j k)) }
{
    hexagons::direction_of(IJK { i, j, k }).into()
}
