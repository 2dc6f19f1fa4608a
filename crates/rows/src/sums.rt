// Rows added to rows, bit by bit without carry.
ghost use Rattle.std.specs.Prelude.{◌≡◌, ℕ, ◌+◌, ◌*◌, ◌<◌, ◌≤◌, length, ◌≢◌, ◌↔◌, IsOk, OnOk, OnErr};
ghost use Rattle.rows.specs.Bytes.{row_at, xored};
ghost use Rattle.rows.specs.Laws.{RowSums, Sums};

use crate::bytes::{Row, put_row, row_at};
use std::array;

/// Two strings that were to be added differ in length.
#[derive(Clone, Copy, PartialEq, Eq, Debug)]
pub struct UnequalLengths;

/// The sum of two rows.
pub fn sum(a: &Row, b: &Row) -> Row
    ensures value { result ≡ xored a.now b.now }
    ensures laws { Sums }
{
    array::from_fn(|i| a[i] ^ b[i])
}

/// Adds a string to a buffer of the same length; where the lengths differ, nothing is written.
#[tactic(auto, using(crate::proofs::Added::row_sums))]
pub fn add(out: &mut [u8], more: &[u8]) -> Result<(), UnequalLengths>
    ensures accepted { IsOk result ↔ (length out.old ≡ length more.now) }
    ensures added { OnOk result (out.new ≡ xored out.old more.now) }
    ensures kept { OnErr result (out.new ≡ out.old) }
    ensures laws { RowSums }
{
    if out.len() != more.len() {
        return Err(UnequalLengths);
    }
    for (i, byte) in more.iter().enumerate() {
        out[i] ^= *byte;
    }
    Ok(())
}

/// Adds a row to row number k, from 0, of a buffer; where there is no such row, nothing is written.
pub fn add_row(out: &mut [u8], k: usize, row: &Row)
    ensures new { 32 * (k + 1) ≤ length out.old →
        row_at k out.new ≡ xored (row_at k out.old) row.now }
    ensures old { (m : ℕ) → (m ≢ k) → row_at m out.new ≡ row_at m out.old }
    ensures outside { length out.old < 32 * (k + 1) → out.new ≡ out.old }
{
    if k < out.len() / 32 {
        let added = sum(&row_at(out, 32 * k), row);
        put_row(out, k, &added);
    }
}
