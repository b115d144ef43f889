// Entries that take a cell: the check, its descendants and its ancestors. Each says its promise in full, a listing what becomes of the buffer too: there
// the gate looks for the statement of an entry.
ghost use Rattle.std.specs.Prelude.{◌≡◌, ℕ, ◌+◌, length};
ghost use Rattle.index.specs.Layout.{res_of};
ghost use Rattle.index.specs.Check.{check_of};
ghost use Rattle.index.specs.Told.{told};
ghost use Rattle.children.specs.Cursors.{next_of};
ghost use Rattle.cell_entries.specs.Cells.{valid_of, finer_of, wanted_told, count_of, child_at_of, cursor_of, room_of, list_of, list_short_of, afterwards, position_of, ancestor_of};

use children::{Cursor, Given};
use descent::Descent;
use index::{Cell, Refusal, Resolution};

pub fn check(raw: u64) -> Result<(), Refusal>
    ensures { told result ≡ valid_of raw }
{
    index::check_flat(raw)?;
    Ok(())
}

// A cell and a resolution that is not coarser. Inlined, since a call of one that entries share has its answer in memory.
#[inline(always)]
fn finer(raw: u64, target: u32) -> Result<Descent, Refusal>
    ensures { wanted_told result ≡ finer_of raw target }
{
    let cell = index::check(raw)?;
    let t = Resolution::try_from(target as u64)?;
    if t < cell.resolution() {
        return Err(Refusal::Order);
    }
    Ok(Descent::new(cell, t))
}

pub fn count(raw: u64, target: u32) -> Result<u64, Refusal>
    ensures { told result ≡ count_of raw target }
{
    let d = finer(raw, target)?;
    Ok(d.count())
}

pub fn child_at(raw: u64, target: u32, position: u64) -> Result<u64, Refusal>
    ensures { told result ≡ child_at_of raw target position }
{
    let d = finer(raw, target)?;
    if d.count() <= position {
        return Err(Refusal::Position);
    }
    Ok(ranks::child_at(d, position).number())
}

pub fn cursor(raw: u64, target: u32) -> Result<Cursor, Refusal>
    ensures { told result ≡ cursor_of raw target }
{
    let d = finer(raw, target)?;
    Ok(children::fresh(d))
}

pub fn next(cursor: Cursor) -> Given
    ensures { result ≡ next_of cursor }
{
    cursor.next()
}

// The descendants, once only the room is left to judge.
fn fill(d: Descent, buf: &mut [u64]) -> Result<u64, Refusal>
    ensures answer { told result ≡ room_of d.cell d.target (length buf.old) }
    ensures buffer { buf.new ≡ afterwards (room_of d.cell d.target (length buf.old)) d.cell d.target buf.old }
{
    let n = d.count();
    if (buf.len() as u64) < n {
        return Err(Refusal::NoRoom);
    }
    listing::list(d, buf);
    Ok(n)
}

pub fn list(raw: u64, target: u32, buf: &mut [u64]) -> Result<u64, Refusal>
    ensures { (told result ≡ list_of raw target (length buf.old)) × (buf.new ≡ afterwards (list_of raw target (length buf.old)) raw target buf.old) }
{
    let d = finer(raw, target)?;
    fill(d, buf)
}

pub fn list_short(raw: u64, buf: &mut [u64]) -> Result<u64, Refusal>
    ensures { (told result ≡ list_short_of raw (length buf.old)) × (buf.new ≡ afterwards (list_short_of raw (length buf.old)) raw (res_of raw + 1) buf.old) }
{
    let cell = index::check(raw)?;
    let t = Resolution::try_from(cell.resolution().number() + 1)?;
    fill(Descent::new(cell, t), buf)
}

// The position of two cells by their checks, so that a block checks its first cell once.
#[inline(always)]
pub fn below(a: Result<Cell, Refusal>, b: Result<Cell, Refusal>) -> Result<u64, Refusal>
    ensures { (n y : ℕ) → told a ≡ check_of n → told b ≡ check_of y → told result ≡ position_of n y }
{
    ranks::position(a?, b?)
}

pub fn position(first: u64, second: u64) -> Result<u64, Refusal>
    ensures { told result ≡ position_of first second }
{
    below(index::check(first), index::check(second))
}

// Inlined in the entry over a block too.
#[inline(always)]
pub fn ancestor(raw: u64, coarser: u32) -> Result<u64, Refusal>
    ensures { told result ≡ ancestor_of raw coarser }
{
    let cell = index::check(raw)?;
    let r = Resolution::try_from(coarser as u64)?;
    if cell.resolution() < r {
        return Err(Refusal::Order);
    }
    Ok(cell.ancestor(r).number())
}
