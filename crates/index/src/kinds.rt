// The kinds of number that an index holds beside the cell itself: a tuple struct for each, as document 01 has them, and no one struct with its bound
// as a parameter, which would make one kind of them.
ghost use Rattle.std.specs.Prelude.{◌≡◌, ◌-◌, ◌^◌, ◌≤◌};

use crate::Refusal;
use std::marker::Model;

// 0 to 15.
#[derive(Clone, Copy, Debug, PartialEq, Eq, PartialOrd, Ord, Hash)]
pub struct Resolution(u64);

impl Model for Resolution {
    ghost use Rattle.std.specs.Prelude.{ℕ, ◌≤◌};

    ghost Value = { ℕ };

    ghost view = { λ r. r.0 };

    ghost invariant = { λ r. r.0 ≤ 15 };

    ghost inverse = { λ n. record { 0 = n } };
}

impl Resolution {
    pub fn new_unchecked(r: u64) -> Self
        requires { r ≤ 15 }
        ensures { result ≡ r }
    {
        Resolution(r)
    }

    pub fn number(self) -> u64
        ensures value { result ≡ self }
        ensures bound { self ≤ 15 }
    {
        self.0
    }

    // One in the place of the digit of this resolution.
    pub fn place(self) -> u64
        ensures value { result ≡ 8 ^ (15 - self) }
        ensures bound { self ≤ 15 }
    {
        1 << (3 * (15 - self.0))
    }
}

impl TryFrom<u64> for Resolution {
    ghost use Rattle.index.specs.Told.{TakenAsResolution};

    type Error = Refusal;

    ghost try_from_gives = { TakenAsResolution };

    fn try_from(r: u64) -> Result<Self, Refusal> {
        if r > 15 {
            return Err(Refusal::Resolution);
        }
        Ok(Resolution::new_unchecked(r))
    }
}

// 0 to 121.
#[derive(Clone, Copy, Debug, PartialEq, Eq, PartialOrd, Ord, Hash)]
pub struct BaseCell(u64);

impl Model for BaseCell {
    ghost use Rattle.std.specs.Prelude.{ℕ, ◌≤◌};

    ghost Value = { ℕ };

    ghost view = { λ b. b.0 };

    ghost invariant = { λ b. b.0 ≤ 121 };

    ghost inverse = { λ n. record { 0 = n } };
}

impl BaseCell {
    pub fn new_unchecked(b: u64) -> Self
        requires { b ≤ 121 }
        ensures { result ≡ b }
    {
        BaseCell(b)
    }
}

// A used digit, 0 to 6.
#[derive(Clone, Copy, Debug, PartialEq, Eq, PartialOrd, Ord, Hash)]
pub struct Digit(u64);

impl Model for Digit {
    ghost use Rattle.std.specs.Prelude.{ℕ, ◌≤◌};

    ghost Value = { ℕ };

    ghost view = { λ d. d.0 };

    ghost invariant = { λ d. d.0 ≤ 6 };

    ghost inverse = { λ n. record { 0 = n } };
}

impl Digit {
    pub fn new_unchecked(d: u64) -> Self
        requires { d ≤ 6 }
        ensures { result ≡ d }
    {
        Digit(d)
    }

    pub fn number(self) -> u64
        ensures value { result ≡ self }
        ensures bound { self ≤ 6 }
    {
        let Digit(d) = self;
        d
    }
}
