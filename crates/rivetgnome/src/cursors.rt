// Exports of the cursor, which is five words in C.
ghost use Rattle.std.specs.Prelude.{◌≡◌};
ghost use Rattle.index.specs.Refusals.{number_of};
ghost use Rattle.cell_entries.specs.Cells.{cursor_of};
ghost use Rattle.outward.specs.Exports.{number_out};
ghost use Rattle.outward.specs.CursorWords.{cursor_of_words, started_words, next_number, next_words};

use hexagons::Refusal;
use outward::{RgChecked, RgNumber, cursor_in, given_out, started_out};

#[unsafe(no_mangle)]
pub extern "C" fn rg_cursor(cell: u64, target: u32, out: &mut [u64; 5]) -> RgChecked
    ensures { (result.refusal ≡ number_of (cursor_of cell target)) × (result.zero ≡ 0) × (out.new ≡ started_words out.old (cursor_of cell target)) }
{
    started_out(hexagons::cursor(cell, target), out)
}

#[unsafe(no_mangle)]
pub extern "C" fn rg_next(cursor: &mut [u64; 5]) -> RgNumber
    ensures { (result ≡ number_out (next_number (cursor_of_words cursor.old))) × (cursor.new ≡ next_words cursor.old (cursor_of_words cursor.old)) }
{
    let Some(c) = cursor_in(*cursor) else {
        return Err::<u64, _>(Refusal::Position).into();
    };
    given_out(hexagons::next(c), cursor)
}
