// Why a request is refused: document 01's table.
ghost use Rattle.std.specs.Prelude.{◌≡◌};
ghost use Rattle.index.specs.Told.{number};

use std::error::Error;
use std::fmt;

#[derive(Clone, Copy, Debug, PartialEq, Eq, Hash)]
pub enum Refusal {
    TopBit = 1,
    Mode,
    Reserved,
    BaseCell,
    Digit,
    Unused,
    Deleted,
    Resolution,
    Order,
    NoRoom,
    Position,
    NotUnder,
    Direction,
    Range,
    NoString,
    NotUnit,
    DeletedWay,
}

impl Refusal {
    pub fn number(self) -> u16
        ensures { result ≡ number self }
    {
        // By way of 8 bits: so the compiler sees that a number made into a refusal and back is the same.
        u16::from(self as u8)
    }
}

impl fmt::Display for Refusal {
    ghost use Rattle.std.specs.Prelude.{Some, ◌++◌, codes, decimal};
    ghost use Rattle.index.specs.Told.{number};

    ghost output = { λ x. Some (codes "refusal " ++ decimal (number x)) };

    fn fmt<W: fmt::Write>(&self, f: &mut fmt::Formatter<W>) -> fmt::Result {
        write!(f, "refusal {}", self.number())
    }
}

impl Error for Refusal {}
