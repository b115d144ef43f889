// A count of turns by 60 degrees, 0 to 5, and their sense: a flag, as document 01 has it, here and wherever a function turns one way or the other.
ghost use Rattle.std.specs.Prelude.{◌≡◌, ◌≤◌};

use std::marker::Model;

#[derive(Clone, Copy, Debug, PartialEq, Eq, Hash)]
pub struct Rotation {
    ccw: bool,
    count: u8,
}

// In a contract it is the pair of the two.
impl Model for Rotation {
    ghost use Rattle.std.specs.Prelude.{Bool, ℕ, ◌≤◌};

    ghost Value = { Bool × ℕ };

    ghost view = { λ t. (t.ccw, t.count) };

    ghost invariant = { λ t. t.count ≤ 5 };

    ghost inverse = { λ t. record { ccw = t.0; count = t.1 } };
}

impl Rotation {
    pub fn new_unchecked(ccw: bool, count: u8) -> Self
        requires { count ≤ 5 }
        ensures { result ≡ (ccw, count) }
    {
        Rotation { ccw, count }
    }

    pub fn is_ccw(self) -> bool
        ensures { result ≡ self.0 }
    {
        self.ccw
    }

    pub fn count(self) -> u8
        ensures value { result ≡ self.1 }
        ensures few { self.1 ≤ 5 }
    {
        self.count
    }
}
