// Exports over a block of numbers. The C interface: values and refusals are two blocks.
ghost use Rattle.std.specs.Prelude.{◌≡◌};
ghost use Rattle.index.specs.Check.{check_of};
ghost use Rattle.block_entries.specs.Blocks.{block_of, values_after, refusals_after};
ghost use Rattle.cell_entries.specs.Cells.{position_of, ancestor_of};
ghost use Rattle.outward.specs.Exports.{number_out};

use outward::RgNumber;

#[unsafe(no_mangle)]
pub extern "C" fn rg_check_block(
    cells: &[u64],
    values: &mut [u64],
    refusals: &mut [u16],
) -> RgNumber
    ensures { (result ≡ number_out (block_of cells.now values.old refusals.old)) × (values.new ≡ values_after check_of cells.now values.old refusals.old) × (refusals.new ≡ refusals_after check_of cells.now values.old refusals.old) }
{
    hexagons::check_block(cells, values, refusals).into()
}

#[unsafe(no_mangle)]
pub extern "C" fn rg_ancestor_block(
    cells: &[u64],
    resolution: u32,
    values: &mut [u64],
    refusals: &mut [u16],
) -> RgNumber
    ensures { (result ≡ number_out (block_of cells.now values.old refusals.old)) × (values.new ≡ values_after (λ raw. ancestor_of raw resolution) cells.now values.old refusals.old) × (refusals.new ≡ refusals_after (λ raw. ancestor_of raw resolution) cells.now values.old refusals.old) }
{
    hexagons::ancestor_block(cells, resolution, values, refusals).into()
}

#[unsafe(no_mangle)]
pub extern "C" fn rg_position_block(
    first: u64,
    seconds: &[u64],
    values: &mut [u64],
    refusals: &mut [u16],
) -> RgNumber
    ensures { (result ≡ number_out (block_of seconds.now values.old refusals.old)) × (values.new ≡ values_after (position_of first) seconds.now values.old refusals.old) × (refusals.new ≡ refusals_after (position_of first) seconds.now values.old refusals.old) }
{
    hexagons::position_block(first, seconds, values, refusals).into()
}
