// Entries over a block of numbers: what the single entry gives for each element. Each says its three promises itself, where the gate looks for the
// statement of an entry. Values and refusals are two blocks, as C lends them, and may be longer than the cells; so they are written by index.
ghost use Rattle.std.specs.Prelude.{◌≡◌, ℕ, ◌^◌, ◌<◌, Result};
ghost use Rattle.index.specs.Refusals.{Outcome, number_of};
ghost use Rattle.entry.specs.Answers.{value_of};
ghost use Rattle.index.specs.Check.{check_of};
ghost use Rattle.index.specs.Told.{told};
ghost use Rattle.index.specs.declared.refusal.Refusal.{Refusal};
ghost use Rattle.block_entries.specs.Blocks.{block_of, values_after, refusals_after};
ghost use Rattle.cell_entries.specs.Cells.{position_of, ancestor_of};

use cell_entries::{ancestor, below};
use index::Refusal;

// What is written of an answer: its value and 0, or 0 and the refusal's number.
fn written(a: Result<u64, Refusal>) -> (u64, u16)
    ensures value { result.0 ≡ value_of (told a) }
    ensures refusal { result.1 ≡ number_of (told a) }
{
    match a {
        Ok(value) => (value, 0),
        Err(x) => (0, x.number()),
    }
}

// Writes what f gives for each element.
fn each<F: Fn(u64) -> Result<u64, Refusal>>(
    cells: &[u64],
    values: &mut [u64],
    refusals: &mut [u16],
    f: F,
) -> Result<u64, Refusal>
    requires { F.IsAlwaysCallable f }
    ensures { (entry : ℕ → Outcome ℕ) → ((n : ℕ) (r : Result ℕ Refusal) → n < 2 ^ 64 → F.post f n r → told r ≡ entry n) → (told result ≡ block_of cells.now values.old refusals.old) × (values.new ≡ values_after entry cells.now values.old refusals.old) × (refusals.new ≡ refusals_after entry cells.now values.old refusals.old) }
{
    let n = cells.len();
    if values.len() < n || refusals.len() < n {
        return Err(Refusal::NoRoom);
    }
    for (i, c) in cells.iter().enumerate() {
        let (value, refusal) = written(f(*c));
        values[i] = value;
        refusals[i] = refusal;
    }
    Ok(n as u64)
}

pub fn check_block(cells: &[u64], values: &mut [u64], refusals: &mut [u16]) -> Result<u64, Refusal>
    ensures { (told result ≡ block_of cells.now values.old refusals.old) × (values.new ≡ values_after check_of cells.now values.old refusals.old) × (refusals.new ≡ refusals_after check_of cells.now values.old refusals.old) }
{
    let kept = |raw| -> Result<u64, Refusal>
        ensures { told result ≡ check_of raw }
    { Ok(index::check(raw)?.number()) };
    each(cells, values, refusals, kept)
}

pub fn ancestor_block(
    cells: &[u64],
    coarser: u32,
    values: &mut [u64],
    refusals: &mut [u16],
) -> Result<u64, Refusal>
    ensures { (told result ≡ block_of cells.now values.old refusals.old) × (values.new ≡ values_after (λ raw. ancestor_of raw coarser) cells.now values.old refusals.old) × (refusals.new ≡ refusals_after (λ raw. ancestor_of raw coarser) cells.now values.old refusals.old) }
{
    let above = |raw| -> Result<u64, Refusal>
        ensures { told result ≡ ancestor_of raw coarser }
    { ancestor(raw, coarser) };
    each(cells, values, refusals, above)
}

pub fn position_block(
    first: u64,
    seconds: &[u64],
    values: &mut [u64],
    refusals: &mut [u16],
) -> Result<u64, Refusal>
    ensures { (told result ≡ block_of seconds.now values.old refusals.old) × (values.new ≡ values_after (position_of first) seconds.now values.old refusals.old) × (refusals.new ≡ refusals_after (position_of first) seconds.now values.old refusals.old) }
{
    let checked = index::check(first);
    let under = |second| -> Result<u64, Refusal>
        ensures { (n : ℕ) → told checked ≡ check_of n → told result ≡ position_of n second }
    { below(checked, index::check(second)) };
    each(seconds, values, refusals, under)
}
