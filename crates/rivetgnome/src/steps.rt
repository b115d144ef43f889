// Exports on turns of cells, centres, the walk and the step. The C interface: a point is loose numbers, and each sense of turning has a name.
ghost use Rattle.std.specs.Prelude.{◌≡◌, true, false};
ghost use Rattle.step_entries.specs.Steps.{turn_of, pentagon_turn_of, centre_of, walk_of, step_of};
ghost use Rattle.outward.specs.Exports.{number_out, point_out, walked_out, stepped_out};
ghost use Rattle.rivetgnome.specs.Steps.{ReadsBackOut};
ghost use Rattle.plane.specs.Directions.{triple};

use hexagons::IJK;
use outward::{RgNumber, RgPoint, RgStepped, RgWalked, stepped_out};

#[unsafe(no_mangle)]
pub extern "C" fn rg_turn_ccw(cell: u64, count: u32) -> RgNumber
    ensures { result ≡ number_out (turn_of true cell count) }
{
    hexagons::turn(cell, count, true).into()
}

#[unsafe(no_mangle)]
pub extern "C" fn rg_turn_cw(cell: u64, count: u32) -> RgNumber
    ensures { result ≡ number_out (turn_of false cell count) }
{
    hexagons::turn(cell, count, false).into()
}

#[unsafe(no_mangle)]
pub extern "C" fn rg_pentagon_turn_ccw(cell: u64) -> RgNumber
    ensures { result ≡ number_out (pentagon_turn_of true cell) }
{
    hexagons::pentagon_turn(cell, true).into()
}

#[unsafe(no_mangle)]
pub extern "C" fn rg_pentagon_turn_cw(cell: u64) -> RgNumber
    ensures { result ≡ number_out (pentagon_turn_of false cell) }
{
    hexagons::pentagon_turn(cell, false).into()
}

#[unsafe(no_mangle)]
pub extern "C" fn rg_centre(cell: u64) -> RgPoint
    ensures { result ≡ point_out (centre_of cell) }
{
    hexagons::centre(cell).into()
}

#[unsafe(no_mangle)]
pub extern "C" fn rg_read_back(length: u32, i: i32, j: i32, k: i32) -> RgNumber
    ensures { ReadsBackOut length (triple i j k) result }
{
    hexagons::read_back(length, IJK { i, j, k }).into()
}

#[unsafe(no_mangle)]
pub extern "C" fn rg_walk(cell: u64, direction: u32) -> RgWalked
    ensures { result ≡ walked_out (walk_of cell direction) }
{
    hexagons::walk(cell, direction).into()
}

#[unsafe(no_mangle)]
pub extern "C" fn rg_step(cell: u64, direction: u32) -> RgStepped
    ensures { result ≡ stepped_out (step_of cell direction) }
{
    stepped_out(hexagons::step(cell, direction))
}
