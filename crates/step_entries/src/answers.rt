// What the walk and the step are answered. In plain numbers, not the kinds of `walks` and `grid`: those stay inside the library.

// A raw number and the carry.
#[derive(Clone, Copy, Debug, PartialEq, Eq, Hash)]
pub struct Walked {
    pub number: u64,
    pub carry: u32,
}

impl From<walks::Walked> for Walked {
    ghost use Rattle.std.specs.Prelude.{◌≡◌};

    ghost from_gives = { λ w a. (a.number ≡ w.number) × (a.carry ≡ w.carry) };

    fn from(w: walks::Walked) -> Self {
        Walked {
            number: w.number,
            carry: w.carry.value() as u32,
        }
    }
}

#[derive(Clone, Copy, Debug, PartialEq, Eq, Hash)]
pub enum Stepped {
    // A cell of the same base cell, and the turn number.
    Inside(u64, u32),
    // The base cell is left in a direction.
    Leaves(u32),
}

impl From<grid::Stepped> for Stepped {
    ghost use Rattle.std.specs.Prelude.{◌≡◌};
    ghost use Rattle.grid.specs.Steps.{answer};
    ghost use Rattle.step_entries.specs.Told.{stepped_answer};

    ghost from_gives = { λ s a. stepped_answer a ≡ answer s };

    fn from(s: grid::Stepped) -> Self {
        match s {
            grid::Stepped::Inside(cell, turn) => Stepped::Inside(cell.number(), turn as u32),
            grid::Stepped::Leaves(d) => Stepped::Leaves(d.value() as u32),
        }
    }
}
