// Fields of any 64 bits, and the writing of a digit.
ghost use Rattle.std.specs.Prelude.{◌≡◌, ◌≤◌, if◌then◌else◌};
ghost use Rattle.index.specs.Layout.{top_bit, reserved_of, res_of, base_of, digit, first_of};
ghost use Rattle.index.specs.Written.{Written};

use crate::{Digit, Resolution};

// The 45 bits of the digits, and one more.
pub const DIGITS_END: u64 = 0x2000_0000_0000;

// One in the field of the resolution.
pub const ONE_RESOLUTION: u64 = 0x10_0000_0000_0000;

// One in the place of each digit.
pub const ONES: u64 = 0o111111111111111;

// Seven in the place of each digit.
pub(crate) const SEVENS: u64 = 0o777777777777777;

// The bits above those of the digits.
const PREFIX_LENGTH: u64 = 19;

// The one or the other, by a conditional move where an `if` in the caller would be a branch.
pub fn sel(t: bool, a: u64, b: u64) -> u64
    ensures { result ≡ (if t then a else b) }
{
    if t { a } else { b }
}

// Fields by their own places and widths; one reader with both as parameters would be no plainer.
pub(crate) fn get_top(n: u64) -> u64
    ensures { result ≡ top_bit n }
{
    (n >> 63) % 2
}

pub(crate) fn get_reserved(n: u64) -> u64
    ensures { result ≡ reserved_of n }
{
    (n >> 56) % 8
}

pub(crate) fn get_resolution(n: u64) -> Resolution
    ensures { result ≡ res_of n }
{
    Resolution::new_unchecked((n >> 52) % 16)
}

pub(crate) fn get_base_cell(n: u64) -> u64
    ensures { result ≡ base_of n }
{
    (n >> 45) % 128
}

// The digit of resolution r of any number.
pub fn get_direction(n: u64, r: Resolution) -> u64
    requires { 1 ≤ r }
    ensures { result ≡ digit n r }
{
    (n >> (3 * (15 - r.number()))) % 8
}

// The first used digit that is not 0, or 0: document 01 has 0 for none. After digits that are all 0 comes a 7 that is not used: the place is capped at the resolution.
pub fn first_axe(n: u64) -> u64
    ensures { result ≡ first_of n (res_of n) }
{
    let own = get_resolution(n);
    let k = own.number();
    if k == 0 {
        return 0;
    }
    let z = (n % DIGITS_END).leading_zeros() as u64;
    let at = (z - PREFIX_LENGTH) / 3 + 1;
    if k < at {
        get_direction(n, own)
    } else {
        get_direction(n, Resolution::new_unchecked(at))
    }
}

// The number with d as its digit of resolution r.
pub fn set_direction(n: u64, r: Resolution, d: Digit) -> u64
    requires { 1 ≤ r }
    ensures { Written n r d result }
{
    let new = d.number();
    let u = r.place();
    let old = get_direction(n, r);
    n - old * u + new * u
}
