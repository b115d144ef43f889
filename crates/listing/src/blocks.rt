// A listing by runs and blocks.
ghost use Rattle.std.specs.Prelude.{◌≡◌, ◌+◌, ◌-◌, ◌*◌, ◌^◌, ◌<◌, ◌≤◌, true, false, ◌++◌, length, drop};
ghost use Rattle.index.specs.Layout.{Valid, res_of};
ghost use Rattle.descent.specs.Descendants.{count, count_of};
ghost use Rattle.descent.specs.Positions.{tab, listing};
ghost use Rattle.listing.specs.Copies.{copies, ramp, stairs, number_at};

use descent::Descent;

// Each of the elements a to e - 1 is the one d before it, and s. By its index, since it reads what it wrote in the same buffer.
#[tactic(auto, unfolding(crate::specs::Copies::copies))]
fn spread(buf: &mut [u64], a: usize, e: usize, d: usize, s: u64)
    requires { (1 ≤ d) × (d ≤ a) × (a ≤ e) × (e ≤ length buf.old) }
    ensures { buf.new ≡ copies buf.old a (e - a) d s }
{
    for i in a..e {
        buf[i] = buf[i - d].wrapping_add(s);
    }
}

// All elements: q, q + s, ..
#[tactic(auto, unfolding(crate::specs::Copies::ramp))]
fn run(buf: &mut [u64], q: u64, s: u64)
    requires { q + length buf.old * s < 2 ^ 64 }
    ensures { buf.new ≡ ramp buf.old 0 q s (length buf.old) }
{
    let mut v = q;
    for x in buf {
        *x = v;
        v += s;
    }
}

// From element i on, k runs of seven siblings; the first of each is 8 * s above that of the run before.
// (Tried: over `chunks_mut(7)` the proof did not close.)
#[tactic(auto, using(crate::proofs::Copies::ramp_part), unfolding(crate::specs::Copies::stairs))]
fn runs(buf: &mut [u64], i: usize, k: usize, q: u64, s: u64)
    requires { (i + 7 * k ≤ length buf.old) × (q + k * (8 * s) < 2 ^ 64) }
    ensures { buf.new ≡ stairs buf.old i q s k }
{
    let mut v = q;
    for j in 0..k {
        run(&mut buf[i + 7 * j..i + 7 * j + 7], v, s);
        v += 8 * s;
    }
}

// The numbers below a first child, `levels` resolutions down; `unit` is one in the finest digit's place.
#[derive(Clone, Copy)]
struct Numbers {
    first: u64,
    unit: u64,
    levels: u64,
    ghost shallow: { levels ≤ 15 },
    ghost narrow: { unit ≤ 2 ^ 45 },
    ghost small: { unit * 8 ^ levels ≤ 2 ^ 45 },
    ghost low: { first < 2 ^ 63 },
}

// A hexagon and a pentagon have functions of their own: the blocks of a level lie otherwise, so that one function would branch at each step.
impl Numbers {
    ghost use Rattle.listing.specs.Filled.{Filled};

    // Below a hexagon where the first 49 are there: seven blocks a level, each the one before it with a step.
    fn grow_hexagon(self, buf: &mut [u64])
        requires deep { 2 ≤ self.levels }
        requires room { count false self.levels ≤ length buf.old }
        requires begun { Filled self false 49 buf.old buf.old }
        ensures { Filled self false (count false self.levels) buf.old buf.new }
    {
        let mut size = 49;
        let mut step = 64 * self.unit;
        for _ in 2..self.levels {
            spread(buf, size, size * 7, size, step);
            size *= 7;
            step *= 8;
        }
    }

    // A copy from few elements before is slow, since it loads in pairs what was stored one by one; so the first 49 are runs.
    fn fill_hexagon(self, buf: &mut [u64])
        requires { count false self.levels ≤ length buf.old }
        ensures { Filled self false (count false self.levels) buf.old buf.new }
    {
        if self.levels == 0 {
            buf[0] = self.first;
            return;
        }
        if self.levels == 1 {
            run(&mut buf[..7], self.first, self.unit);
            return;
        }
        runs(buf, 0, 7, self.first, self.unit);
        self.grow_hexagon(buf);
    }

    // Below a pentagon where the first 90 are there. At the level j the blocks have 7^j elements from `at` on; the blocks 2 to 5 end
    // the level, and 6 to 12 are the first block of the next.
    fn grow_pentagon(self, buf: &mut [u64])
        requires deep { 3 ≤ self.levels }
        requires room { count true self.levels ≤ length buf.old }
        requires begun { Filled self true 90 buf.old buf.old }
        ensures { Filled self true (count true self.levels) buf.old buf.new }
    {
        let mut at = 41;
        let mut size = 49;
        let mut step = 64 * self.unit;
        for _ in 2..self.levels - 1 {
            let end = at + 5 * size;
            spread(buf, at + size, end, size, step);
            spread(buf, end, end + size, 5 * size, 14 * step);
            spread(buf, end + size, end + 7 * size, size, step);
            at = end;
            size *= 7;
            step *= 8;
        }
        spread(buf, at + size, at + 5 * size, size, step);
    }

    // The first 90 are runs: the siblings 2 to 6, the five runs of the level 1, and the seven of the first block of the level 2.
    fn fill_pentagon(self, buf: &mut [u64])
        requires { count true self.levels ≤ length buf.old }
        ensures { Filled self true (count true self.levels) buf.old buf.new }
    {
        buf[0] = self.first;
        if self.levels == 0 {
            return;
        }
        run(&mut buf[1..6], self.first + 2 * self.unit, self.unit);
        if self.levels == 1 {
            return;
        }
        runs(buf, 6, 5, self.first + 16 * self.unit, self.unit);
        if self.levels == 2 {
            return;
        }
        runs(buf, 41, 7, self.first + 128 * self.unit, self.unit);
        self.grow_pentagon(buf);
    }
}

// All descendants, in their order.
pub fn list(d: Descent, buf: &mut [u64])
    requires { count_of d.cell d.target ≤ length buf.old }
    ensures { buf.new ≡ listing d.cell d.target ++ drop (count_of d.cell d.target) buf.old }
{
    let below = Numbers {
        first: d.first(),
        unit: d.target().place(),
        levels: d.steps(),
    };
    if d.cell().is_pentagon() {
        below.fill_pentagon(buf);
    } else {
        below.fill_hexagon(buf);
    }
}
