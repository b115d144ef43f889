// The check of a raw number: the one way from a number to a cell.
ghost use Rattle.std.specs.Prelude.{◌≡◌, ◌-◌, ◌≤◌, true, if◌then◌else◌, nat_eq};
ghost use Rattle.index.specs.Layout.{is_pentagonal};
ghost use Rattle.index.specs.Refusals.{answered, refused};
ghost use Rattle.index.specs.Check.{check_of};
ghost use Rattle.index.specs.Told.{number, told};
ghost use Rattle.index.specs.Words.{Each, Numbered, mark, ones, low};

use crate::base_cell::pentagon_bit;
use crate::bits::{ONES, get_base_cell, get_reserved, get_resolution, get_top, sel};
use crate::{Cell, Refusal, Resolution};
use std::num::wrapping_sub_u64;

// The bits above the resolution: mode 1.
const CELL_HEAD: u64 = 8;

// All bits of each digit but the lowest.
const SIXES: u64 = 0o666666666666666;

// One in the place of each digit that is 7.
#[tactic(auto, using(crate::proofs::Flags::marked))]
fn marks(n: u64) -> u64
    ensures { Each mark n result }
{
    n & (n >> 1) & (n >> 2) & ONES
}

// The marks of a number that has 7 past the resolution r and nowhere else.
#[tactic(auto, using(crate::proofs::Flags::ones_shifted))]
fn unused(r: Resolution) -> u64
    ensures { result ≡ ones (15 - r) }
{
    ONES >> (3 * r.number())
}

// The low bits of the digits, in pentagon base cells; elsewhere 0. They exceed the digits' other bits exactly if the first digit that is not 0 is 1.
#[tactic(auto, using(crate::proofs::Leading::lows))]
fn low_bits(n: u64, base: u64) -> u64
    requires { base ≤ 127 }
    ensures { Each (λ d. (if is_pentagonal base then low d else 0)) n result }
{
    let bit = pentagon_bit(base);
    (n & ONES) * bit
}

// The refusal's number or 0, from the last test to the first, so that none is a branch; as a chain of Results the check of half
// damaged numbers takes 8.05 ns where it takes 5.8. A test need only be right where those before it fail: the mode is
// read with the top bit; a used 7 makes the marks greater than `u`; else an unused digit that is not 7 makes them less; else no unused digit is a first 1.
fn refusal_number(n: u64) -> u64
    ensures { Numbered n result }
{
    let base = get_base_cell(n);
    let u = unused(get_resolution(n));
    let s = marks(n);
    let k7 = sel((n & SIXES) < low_bits(n, base), 7, 0);
    let k6 = sel(s < u, 6, k7);
    let k5 = sel(u < s, 5, k6);
    let k4 = sel(121 < base, 4, k5);
    let k3 = sel(get_reserved(n) != 0, 3, k4);
    let k2 = sel(n >> 59 != 1, 2, k3);
    sel(get_top(n) == 1, 1, k2)
}

// Where it holds, no test refuses the number. Each part is 0 where its tests pass; of two numbers below 2^45 bit 63 of the difference says which is less.
fn is_cell(n: u64) -> bool
    ensures { result ≡ true → check_of n ≡ answered n }
{
    let base = get_base_cell(n);
    let u = unused(get_resolution(n));
    let s = marks(n);
    let head = (n >> 56) ^ CELL_HEAD;
    let beyond = (base + 6) >> 7;
    let deleted = wrapping_sub_u64(n & SIXES, low_bits(n, base)) >> 63;
    head | beyond | (s ^ u) | deleted == 0
}

// The refusal of a number 1 to 7.
fn refusal(k: u8) -> Refusal
    requires { (1 ≤ k) × (k ≤ 7) }
    ensures { number result ≡ k }
{
    match k {
        1 => Refusal::TopBit,
        2 => Refusal::Mode,
        3 => Refusal::Reserved,
        4 => Refusal::BaseCell,
        5 => Refusal::Digit,
        6 => Refusal::Unused,
        7 => Refusal::Deleted,
        // No default arm: the compiler would make a table of jumps of it, in the loop of a block.
        _ => unreachable!(),
    }
}

fn checked(n: u64, k: u64) -> Result<Cell, Refusal>
    requires { Numbered n k }
    ensures { told result ≡ check_of n }
{
    if k == 0 {
        return Ok(Cell::new_unchecked(n));
    }
    Err(refusal(k as u8))
}

// The check, for numbers that mostly are cells. Two checks with one promise, so that neither is the `TryFrom` of a cell. Each arm hands its own number on: of one
// number for both the compiler makes a branch on the top bit.
pub fn check(n: u64) -> Result<Cell, Refusal>
    ensures { told result ≡ check_of n }
{
    if is_cell(n) {
        return checked(n, 0);
    }
    checked(n, refusal_number(n))
}

// The check with no branch, for numbers of which many are bad.
pub fn check_flat(n: u64) -> Result<Cell, Refusal>
    ensures { told result ≡ check_of n }
{
    checked(n, refusal_number(n))
}
