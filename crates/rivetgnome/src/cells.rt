// Exports that take a cell.
ghost use Rattle.std.specs.Prelude.{◌≡◌, ◌+◌, length};
ghost use Rattle.index.specs.Layout.{res_of};
ghost use Rattle.index.specs.Refusals.{number_of};
ghost use Rattle.cell_entries.specs.Cells.{valid_of, count_of, list_of, list_short_of, afterwards, child_at_of, position_of, ancestor_of};
ghost use Rattle.outward.specs.Exports.{number_out};

use outward::{RgChecked, RgNumber};

#[unsafe(no_mangle)]
pub extern "C" fn rg_check(cell: u64) -> RgChecked
    ensures { (result.refusal ≡ number_of (valid_of cell)) × (result.zero ≡ 0) }
{
    hexagons::check(cell).into()
}

#[unsafe(no_mangle)]
pub extern "C" fn rg_count(cell: u64, target: u32) -> RgNumber
    ensures { result ≡ number_out (count_of cell target) }
{
    hexagons::count(cell, target).into()
}

#[unsafe(no_mangle)]
pub extern "C" fn rg_list(cell: u64, target: u32, buf: &mut [u64]) -> RgNumber
    ensures { (result ≡ number_out (list_of cell target (length buf.old))) × (buf.new ≡ afterwards (list_of cell target (length buf.old)) cell target buf.old) }
{
    hexagons::list(cell, target, buf).into()
}

#[unsafe(no_mangle)]
pub extern "C" fn rg_list_short(cell: u64, buf: &mut [u64]) -> RgNumber
    ensures { (result ≡ number_out (list_short_of cell (length buf.old))) × (buf.new ≡ afterwards (list_short_of cell (length buf.old)) cell (res_of cell + 1) buf.old) }
{
    hexagons::list_short(cell, buf).into()
}

#[unsafe(no_mangle)]
pub extern "C" fn rg_child_at(cell: u64, target: u32, position: u64) -> RgNumber
    ensures { result ≡ number_out (child_at_of cell target position) }
{
    hexagons::child_at(cell, target, position).into()
}

#[unsafe(no_mangle)]
pub extern "C" fn rg_position(first: u64, second: u64) -> RgNumber
    ensures { result ≡ number_out (position_of first second) }
{
    hexagons::position(first, second).into()
}

#[unsafe(no_mangle)]
pub extern "C" fn rg_ancestor(cell: u64, resolution: u32) -> RgNumber
    ensures { result ≡ number_out (ancestor_of cell resolution) }
{
    hexagons::ancestor(cell, resolution).into()
}
