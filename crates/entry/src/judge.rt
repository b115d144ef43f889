// What entries judge of the directions, counts and points handed in.
#![tactic(auto, unfolding(index::specs::Refusals::judged))]

ghost use Rattle.std.specs.Prelude.{◌≡◌, [], ◌∷◌};
ghost use Rattle.index.specs.Refusals.{judged};
ghost use Rattle.index.specs.Told.{told};
ghost use Rattle.entry.specs.Rules.{way_rule, onward_rule, count_rule, range_rule};

use index::Refusal;
use plane::direction::Direction;
use plane::ijk;
use plane::ijk::IJK;
use plane::rotation::Rotation;

// A direction, 0 to 6. No `TryFrom`, here and below: no type of these is this crate's.
pub fn head(number: u32) -> Result<Direction, Refusal>
    ensures { told result ≡ judged (way_rule number ∷ []) number }
{
    if 6 < number {
        return Err(Refusal::Direction);
    }
    Ok(Direction::new_unchecked(number as u8))
}

// 1 to 6: what the walk and the step take.
pub fn onward(number: u32) -> Result<Direction, Refusal>
    ensures { told result ≡ judged (onward_rule number ∷ []) number }
{
    if number == 0 {
        return Err(Refusal::Direction);
    }
    head(number)
}

// Turns in one sense, 0 to 5 of them.
pub fn rotation(ccw: bool, count: u32) -> Result<Rotation, Refusal>
    ensures { told result ≡ judged (count_rule count ∷ []) (ccw, count) }
{
    if 5 < count {
        return Err(Refusal::Range);
    }
    Ok(Rotation::new_unchecked(ccw, count as u8))
}

// A point within the range.
pub fn locate(p: IJK) -> Result<IJK, Refusal>
    ensures { told result ≡ judged (range_rule p ∷ []) p }
{
    if !ijk::point_in_range(p) {
        return Err(Refusal::Range);
    }
    Ok(p)
}
