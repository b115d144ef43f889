// The step (grid/algo.rs).
ghost use Rattle.std.specs.Prelude.{◌≡◌, ◌&&◌, ◌==◌};
ghost use Rattle.index.specs.Layout.{res_of, base_of, first_of, is_pentagonal};
ghost use Rattle.grid.specs.Steps.{step_of, step_told};

use index::inside::first_axe;
use index::{Cell, Refusal};
use plane::direction::Direction;
use plane::rotation::Rotation;
use turns::turn_digits;
use walks::walk;

#[derive(Clone, Copy, Debug, PartialEq, Eq, Hash)]
pub enum Stepped {
    // A cell of the same base cell, and the turn number.
    Inside(Cell, u8),
    // The base cell is left in a direction.
    Leaves(Direction),
}

// Whether n lies among the digits that the base cell of c lacks.
fn is_deleted(c: Cell, n: u64) -> bool
    ensures { result ≡ (is_pentagonal (base_of c) && first_of n (res_of n) == 1) }
{
    c.in_pentagon() && first_axe(n) == 1
}

pub fn step(c: Cell, d: Direction) -> Result<Stepped, Refusal>
    ensures { step_told result ≡ step_of c d }
{
    let w = walk(c, d);
    let n = w.number;
    let carry = w.carry;
    if carry.value() != 0 {
        return Ok(Stepped::Leaves(carry));
    }
    if !is_deleted(c, n) {
        let kept = Cell::new_unchecked(n);
        return Ok(Stepped::Inside(kept, 0));
    }
    let first = first_axe(c.number());
    if first == 0 {
        return Err(Refusal::DeletedWay);
    }
    let ccw = first == 3;
    let turned = Cell::new_unchecked(turn_digits(n, Rotation::new_unchecked(ccw, 1)));
    let turn = if ccw { 1 } else { 5 };
    Ok(Stepped::Inside(turned, turn))
}
