// The structs that exports hand out, each made of what an entry answered. The C interface: a refusal's number, or 0, beside the values.
ghost use Rattle.std.specs.Prelude.{◌≡◌, ◌<◌};
ghost use Rattle.index.specs.Refusals.{number_of};
ghost use Rattle.index.specs.Told.{told};
ghost use Rattle.step_entries.specs.Told.{walked_told, stepped_told};
ghost use Rattle.outward.specs.Exports.{number_out, truth_out, point_out, pair_out, walked_out, stepped_out};

use index::Refusal;
use plane::ijk::{IJ, IJK};
use step_entries::{Stepped, Walked};

#[repr(C)]
#[derive(Clone, Copy)]
pub struct RgChecked {
    pub refusal: u16,
    pub zero: u16,
}

// A cell, a count, a position, a direction, a distance, or 0 and 1 for no and yes.
#[repr(C)]
#[derive(Clone, Copy)]
pub struct RgNumber {
    pub refusal: u16,
    pub zero: u16,
    pub value: u64,
}

#[repr(C)]
#[derive(Clone, Copy)]
pub struct RgPoint {
    pub refusal: u16,
    pub zero: u16,
    pub i: i32,
    pub j: i32,
    pub k: i32,
}

#[repr(C)]
#[derive(Clone, Copy)]
pub struct RgPair {
    pub refusal: u16,
    pub zero: u16,
    pub i: i32,
    pub j: i32,
}

// A number with the new digits, and the carry: 0 if none.
#[repr(C)]
#[derive(Clone, Copy)]
pub struct RgWalked {
    pub refusal: u16,
    pub zero: u16,
    pub carry: u32,
    pub number: u64,
}

// Kind 0: a cell of the same base cell and the turn number. Kind 1: the base cell is left in direction `turn`.
#[repr(C)]
#[derive(Clone, Copy)]
pub struct RgStepped {
    pub refusal: u16,
    pub zero: u16,
    pub kind: u16,
    pub turn: u16,
    pub cell: u64,
}

impl From<Result<(), Refusal>> for RgChecked {
    ghost from_gives = { λ a r. (r.refusal ≡ number_of (told a)) × (r.zero ≡ 0) };

    fn from(a: Result<(), Refusal>) -> Self {
        let refusal = match a {
            Ok(()) => 0,
            Err(x) => x.number(),
        };
        RgChecked { refusal, zero: 0 }
    }
}

impl From<Result<u64, Refusal>> for RgNumber {
    ghost from_gives = { λ a r. r ≡ number_out (told a) };

    fn from(a: Result<u64, Refusal>) -> Self {
        match a {
            Ok(value) => RgNumber {
                refusal: 0,
                zero: 0,
                value,
            },
            Err(x) => RgNumber {
                refusal: x.number(),
                zero: 0,
                value: 0,
            },
        }
    }
}

impl From<Result<bool, Refusal>> for RgNumber {
    ghost from_gives = { λ a r. r ≡ truth_out (told a) };

    fn from(a: Result<bool, Refusal>) -> Self {
        RgNumber::from(a.map(u64::from))
    }
}

impl From<Result<IJK, Refusal>> for RgPoint {
    ghost from_gives = { λ a r. r ≡ point_out (told a) };

    fn from(a: Result<IJK, Refusal>) -> Self {
        match a {
            Ok(IJK { i, j, k }) => RgPoint {
                refusal: 0,
                zero: 0,
                i,
                j,
                k,
            },
            Err(x) => RgPoint {
                refusal: x.number(),
                zero: 0,
                i: 0,
                j: 0,
                k: 0,
            },
        }
    }
}

impl From<Result<IJ, Refusal>> for RgPair {
    ghost from_gives = { λ a r. r ≡ pair_out (told a) };

    fn from(a: Result<IJ, Refusal>) -> Self {
        match a {
            Ok(IJ { i, j }) => RgPair {
                refusal: 0,
                zero: 0,
                i,
                j,
            },
            Err(x) => RgPair {
                refusal: x.number(),
                zero: 0,
                i: 0,
                j: 0,
            },
        }
    }
}

impl From<Result<Walked, Refusal>> for RgWalked {
    ghost from_gives = { λ a r. r ≡ walked_out (walked_told a) };

    fn from(a: Result<Walked, Refusal>) -> Self {
        match a {
            Ok(Walked { number, carry }) => RgWalked {
                refusal: 0,
                zero: 0,
                carry,
                number,
            },
            Err(x) => RgWalked {
                refusal: x.number(),
                zero: 0,
                carry: 0,
                number: 0,
            },
        }
    }
}

// A `From` may ask nothing, and would be no plainer: the turn number and the direction have to fit 16 bits.
pub fn stepped_out(a: Result<Stepped, Refusal>) -> RgStepped
    requires { (stepped_out (stepped_told a)).turn < 65536 }
    ensures { result ≡ stepped_out (stepped_told a) }
{
    match a {
        Ok(Stepped::Inside(cell, turn)) => RgStepped {
            refusal: 0,
            zero: 0,
            kind: 0,
            turn: turn as u16,
            cell,
        },
        Ok(Stepped::Leaves(way)) => RgStepped {
            refusal: 0,
            zero: 0,
            kind: 1,
            turn: way as u16,
            cell: 0,
        },
        Err(x) => RgStepped {
            refusal: x.number(),
            zero: 0,
            kind: 0,
            turn: 0,
            cell: 0,
        },
    }
}
