// All rows of a one-time key, for whoever deals them out.
ghost use Rattle.std.specs.Prelude.{◌≡◌, ℕ, ◌+◌, ◌*◌, ◌^◌, ◌<◌, ◌≤◌, ◌⊎◌, [], length, MatchResult, ◌≢◌, slice_index_or};
ghost use Rattle.std.specs.Result.{result_err};
ghost use Rattle.checks.specs.Checks.{first_refusal};
ghost use Rattle.rows.specs.Bytes.{row_at};
ghost use Rattle.sizes.specs.Sizes.{bits};
ghost use Rattle.lmots.specs.LmOts.{X, p, positions};
ghost use Rattle.lmots.specs.Refusals.{position_checks};

use crate::digits::{chain_count, position_count};
use crate::lanes::Lanes;
use crate::refusal::Refusal;
use hash::Hash;
use rows::{Origin, Row, put_row};
use sizes::Width;

// Writes the lanes' rows at position j of the chains from `first` on, as far as there are chains.
// By number, since they lie apart.
fn write_lanes(out: &mut [u8], width: Width, first: usize, j: usize, rows: &[Row; 8])
    requires room { length out.old ≡ 32 * (p (bits width) * 2 ^ bits width) }
    requires inside { j < 2 ^ bits width }
    requires low { first ≤ p (bits width) }
    ensures new { (l : ℕ) → l < 8 → first + l < p (bits width) →
        row_at ((first + l) * 2 ^ bits width + j) out.new ≡ slice_index_or rows.now l [] }
    ensures old { (i k : ℕ) → k < 2 ^ bits width → (i < first) ⊎ (k ≢ j) →
        row_at (i * 2 ^ bits width + k) out.new ≡ row_at (i * 2 ^ bits width + k) out.old }
{
    let size = position_count(width);
    let count = chain_count(width);
    let here = (count - first).min(8);
    for (l, row) in rows[..here].iter().enumerate() {
        put_row(out, (first + l) * size + j, row);
    }
}

// Writes all positions of eight chains of key q, as far as there are chains.
fn write_chains<H: Hash>(origin: Origin, width: Width, q: u32, first: usize, out: &mut [u8])
    requires room { length out.old ≡ 32 * (p (bits width) * 2 ^ bits width) }
    requires low { first ≤ p (bits width) }
    ensures new { (l j : ℕ) → l < 8 → first + l < p (bits width) → j < 2 ^ bits width →
        row_at ((first + l) * 2 ^ bits width + j) out.new
        ≡ X H.hashed origin.id.bytes origin.seed.bytes q (first + l) j }
    ensures old { (i j : ℕ) → i < first → j < 2 ^ bits width →
        row_at (i * 2 ^ bits width + j) out.new ≡ row_at (i * 2 ^ bits width + j) out.old }
{
    let lanes = Lanes::<H>::of_chains(origin.id, q, first as u16);
    let mut rows = lanes.starts(origin.seed);
    write_lanes(out, width, first, 0, &rows);
    // Not by `fold`: the rows of each step are written here too.
    for j in 1..position_count(width) {
        rows = lanes.step((j - 1) as u8, &rows);
        write_lanes(out, width, first, j, &rows);
    }
}

/// Writes the row at every position of every chain of key q, chain by chain, over all of a buffer.
pub fn write_positions<H: Hash>(
    origin: Origin,
    width: Width,
    q: u32,
    out: &mut [u8],
) -> Result<(), Refusal>
    ensures answer { result_err result
        ≡ first_refusal (position_checks (bits width) (length out.old)) }
    ensures written { MatchResult result
        (λ _. out.new ≡ positions H.hashed origin.id.bytes origin.seed.bytes (bits width) q)
        (λ _. out.new ≡ out.old) }
{
    let count = chain_count(width);
    if out.len() != 32 * (count * position_count(width)) {
        return Err(Refusal::Buffer);
    }
    for first in (0..count).step_by(8) {
        write_chains::<H>(origin, width, q, first, out);
    }
    Ok(())
}
