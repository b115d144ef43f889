// Entries on turns of cells, centres, the walk and the step.
ghost use Rattle.std.specs.Prelude.{◌≡◌};
ghost use Rattle.index.specs.Told.{told};
ghost use Rattle.step_entries.specs.Told.{walked_told, stepped_told};
ghost use Rattle.step_entries.specs.Steps.{turn_of, pentagon_turn_of, centre_of, ReadsBack, walk_of, step_of};

use crate::answers::{Stepped, Walked};
use centres::centre;
use entry::judge::{locate, onward, rotation};
use index::{Refusal, Resolution};
use plane::ijk::IJK;

// Each sense has its own copy: shared, this is a call with its answer in memory.
#[inline(always)]
pub fn turn(raw: u64, count: u32, ccw: bool) -> Result<u64, Refusal>
    ensures { told result ≡ turn_of ccw raw count }
{
    let cell = index::check(raw)?;
    let by = rotation(ccw, count)?;
    Ok(turns::rotate60(cell, by))
}

#[inline(always)]
pub fn pentagon_turn(raw: u64, ccw: bool) -> Result<u64, Refusal>
    ensures { told result ≡ pentagon_turn_of ccw raw }
{
    let cell = index::check(raw)?;
    Ok(turns::pentagon_rotate60(cell, ccw))
}

pub fn centre(raw: u64) -> Result<IJK, Refusal>
    ensures { told result ≡ centre_of raw }
{
    let cell = index::check(raw)?;
    Ok(centre::centre(cell))
}

pub fn read_back(length: u32, p: IJK) -> Result<u64, Refusal>
    ensures { ReadsBack length p (told result) }
{
    let long = Resolution::try_from(length as u64)?;
    let at = locate(p)?;
    let cell = centre::read_back(long, at).ok_or(Refusal::NoString)?;
    Ok(cell.number())
}

pub fn walk(raw: u64, direction: u32) -> Result<Walked, Refusal>
    ensures { walked_told result ≡ walk_of raw direction }
{
    let cell = index::check(raw)?;
    let way = onward(direction)?;
    Ok(walks::walk(cell, way).into())
}

pub fn step(raw: u64, direction: u32) -> Result<Stepped, Refusal>
    ensures { stepped_told result ≡ step_of raw direction }
{
    let cell = index::check(raw)?;
    let d = onward(direction)?;
    let s = grid::step(cell, d)?;
    Ok(s.into())
}
