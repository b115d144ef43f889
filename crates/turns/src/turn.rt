// Turns of cells (index/bits.rs).
ghost use Rattle.std.specs.Prelude.{◌≡◌, true, map, ℕ, ◌-◌, ◌*◌, ◌^◌, ◌≤◌, ◌<◌};
ghost use Rattle.plane.specs.Directions.{turns};
ghost use Rattle.index.specs.Layout.{res_of, digit};
ghost use Rattle.index.specs.View.{used};
ghost use Rattle.index.specs.Written.{WithDigits};
ghost use Rattle.index.specs.Words.{Each};
ghost use Rattle.turns.specs.Turns.{turned_by, pentagon_turned};
ghost use Rattle.turns.specs.Moves.{round, flip};

use index::Cell;
use index::inside::{DIGITS_END, ONES, first_axe, sel};
use plane::rotation::Rotation;

// The k low bits of each digit.
fn low_bits(k: u64) -> u64
    requires { k ≤ 3 }
    ensures { result ≡ 5026338869833 * (2 ^ k - 1) }
{
    (ONES << k) - ONES
}

// Each digit's bits moved round by k places, down. Where k is written out, no shift is by a variable.
#[tactic(auto, using(crate::proofs::Wordwise::moved))]
fn bits_round(x: u64, k: u64) -> u64
    requires { k ≤ 2 }
    ensures { Each (round k) x result }
{
    ((x >> k) & low_bits(3 - k)) | ((x & low_bits(k)) << (3 - k))
}

// Seven in the place of each digit whose bits differ.
#[tactic(auto, using(crate::proofs::Wordwise::flipped))]
fn flips(x: u64) -> u64
    ensures { Each flip x result }
{
    (((x ^ (x >> 1)) | (x ^ (x >> 2))) & ONES) * 7
}

// Fifteen digits turned counter-clockwise. One turn moves the bits 4i + 2j + k of each round by two places and changes each bit.
fn turn_word(x: u64, count: u64) -> u64
    requires { (x < 2 ^ 45) × (count ≤ 6) }
    ensures { Each (turns true count) x result }
{
    let third = count % 3;
    let moved = sel(third == 1, bits_round(x, 2), bits_round(x, 1));
    let even = sel(third == 0, x, moved);
    even ^ sel(count % 2 == 1, flips(x), 0)
}

// A number with each used digit turned; under a pentagon base cell it need be no cell, before or after.
pub fn turn_digits(n: u64, by: Rotation) -> u64
    requires { (s : ℕ) → res_of n < s → s ≤ 15 → digit n s ≡ 7 }
    ensures { WithDigits n (map (turns by.0 by.1) (used n (res_of n))) result }
{
    let k = by.count() as u64;
    let x = n % DIGITS_END;
    n - x + turn_word(x, sel(by.is_ccw(), k, 6 - k))
}

// A cell turned by a count: a raw number.
pub fn rotate60(c: Cell, by: Rotation) -> u64
    ensures { result ≡ turned_by by.0 by.1 c }
{
    turn_digits(c.number(), by)
}

// The pentagon turn: twice where one turn takes the first digit that is not 0 to 1.
pub fn pentagon_rotate60(c: Cell, ccw: bool) -> u64
    ensures { result ≡ pentagon_turned ccw c }
{
    let before_one = sel(ccw, 3, 5);
    let count = sel(first_axe(c.number()) == before_one, 2, 1);
    rotate60(c, Rotation::new_unchecked(ccw, count as u8))
}
