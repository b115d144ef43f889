// Coordinates as numbers.
ghost use Rattle.std.specs.Prelude.{◌≡◌, ◌+◌, ◌*◌, ◌≤◌, pos, nat_abs, ◌+ℤ◌, ◌-ℤ◌, ◌*ℤ◌};
ghost use Rattle.plane.specs.Points as points;
ghost use Rattle.plane.specs.Ranges.{in_range};
ghost use Rattle.plane.specs.Inside.{Is};
ghost use Rattle.plane.specs.Strings.{odd};

// Whether a coordinate is within the entry range.
pub fn in_range(n: i32) -> bool
    ensures { result ≡ in_range n }
{
    (-100_000_000..=100_000_000).contains(&n)
}

// a - b
pub(crate) fn less(a: i32, b: i32) -> i32
    requires { (nat_abs a ≤ 500000000) × (nat_abs b ≤ 500000000) }
    ensures { Is (a -ℤ b) 1000000000 result }
{
    a - b
}

// a-fold x, and y.
pub fn scaled(a: u8, x: i32, y: i32) -> i32
    requires { a * nat_abs x + nat_abs y ≤ 1000000000 }
    ensures { Is (pos a *ℤ x +ℤ y) 1000000000 result }
{
    (a as i32) * x + y
}

// The whole number nearest to a seventh. Division rounds toward zero, so 3 is added away from zero first.
fn nearest_seventh(n: i32) -> i32
    requires { nat_abs n ≤ 1000000000 }
    ensures { Is (points.nearest n) 1000000000 result }
{
    if n < 0 { (n - 3) / 7 } else { (n + 3) / 7 }
}

// The whole number nearest to a seventh of a-fold x, and y.
pub fn seventh(a: u8, x: i32, y: i32) -> i32
    requires { a * nat_abs x + nat_abs y ≤ 1000000000 }
    ensures { Is (points.nearest (pos a *ℤ x +ℤ y)) 1000000000 result }
{
    nearest_seventh(scaled(a, x, y))
}

// Whether a resolution is odd.
pub fn is_odd(r: u64) -> bool
    ensures { result ≡ odd r }
{
    r % 2 == 1
}
