// Bytes at a place in a buffer.
ghost use Rattle.std.specs.Prelude.{◌≡◌, ℕ, ◌+◌, ◌*◌, ◌<◌, ◌≤◌, ◌++◌, length, take, drop, replicate, ◌≢◌};
ghost use Rattle.rows.specs.Bytes.{part, row_at};

/// 32 bytes, of which digests, chains, trees and key sheets are made (n = m = 32 in RFC 8554).
pub type Row = [u8; 32];

/// The row that begins at byte `at`, from 0, or the zero row where the bytes do not reach that far.
pub fn row_at(bytes: &[u8], at: usize) -> Row
    ensures inside { at + 32 ≤ length bytes.now → result ≡ part at 32 bytes.now }
    ensures outside { length bytes.now < at + 32 → result ≡ replicate 32 0 }
{
    bytes
        .get(at..)
        .unwrap_or(&[])
        .first_chunk()
        .copied()
        .unwrap_or([0; 32])
}

/// Writes bytes from byte `at` on, from 0; where they do not fit, nothing is written.
pub fn put(out: &mut [u8], at: usize, bytes: &[u8])
    ensures inside { at + length bytes.now ≤ length out.old →
        out.new ≡ take at out.old ++ bytes.now ++ drop (at + length bytes.now) out.old }
    ensures outside { length out.old < at + length bytes.now → out.new ≡ out.old }
{
    if at <= out.len() && out.len() - at >= bytes.len() {
        out[at..at + bytes.len()].copy_from_slice(bytes);
    }
}

/// Writes row number k, from 0, of a buffer; where the buffer has no such row, nothing is written.
pub fn put_row(out: &mut [u8], k: usize, row: &Row)
    ensures new { 32 * (k + 1) ≤ length out.old → row_at k out.new ≡ row.now }
    ensures old { (m : ℕ) → (m ≢ k) → row_at m out.new ≡ row_at m out.old }
    ensures outside { length out.old < 32 * (k + 1) → out.new ≡ out.old }
{
    if k < out.len() / 32 {
        put(out, 32 * k, row);
    }
}
