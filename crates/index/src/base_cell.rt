// The pentagon base cells, as a set of 128 bits.
ghost use Rattle.std.specs.Prelude.{◌≡◌, ◌≤◌, if◌then◌else◌};
ghost use Rattle.index.specs.Layout.{is_pentagonal};

const PENTAGONS_LOW: u64 = 0x8402_0040_0100_4010;

// Where the words of the base cells below 64 and of those from 64 on differ.
const PENTAGONS_CHANGE: u64 = 0x8422_0842_0108_4110;

// Of any number that the field of a base cell holds, 0 to 127, which is no `BaseCell` yet: 1 in a pentagon base cell, else 0. The word is no choice of two, which becomes a branch in a loop.
pub(crate) fn pentagon_bit(b: u64) -> u64
    requires { b ≤ 127 }
    ensures { result ≡ (if is_pentagonal b then 1 else 0) }
{
    let word = PENTAGONS_LOW ^ (PENTAGONS_CHANGE * (b / 64));
    (word >> (b % 64)) % 2
}

pub(crate) fn is_pentagon(b: u64) -> bool
    requires { b ≤ 127 }
    ensures { result ≡ is_pentagonal b }
{
    pentagon_bit(b) == 1
}
