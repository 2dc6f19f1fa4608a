// One-time public keys: from a seed, eight at a time, and the candidate from a signature's rows.
ghost use Rattle.std.specs.Prelude.{◌≡◌, ℕ, ◌+◌, ◌-◌, ◌%◌, ◌^◌, ◌<◌, [], length, IfOk, slice_index_or};
ghost use Rattle.std.specs.Result.{result_err};
ghost use Rattle.checks.specs.Checks.{first_refusal};
ghost use Rattle.rows.specs.Bytes.{row_at, rows};
ghost use Rattle.sizes.specs.Sizes.{bits};
ghost use Rattle.lmots.specs.LmOts.{X, candidate_key, one_time_key, p, public_key};
ghost use Rattle.lmots.specs.Refusals.{chain_checks};

use crate::digits::{chain_count, last_position, selection};
use crate::lanes::{Chain, Lanes};
use crate::opening::opened;
use crate::refusal::Refusal;
use crate::single::walk;
use hash::Hash;
use rows::{Identifier, Origin, Row};
use sizes::Width;
use std::array;

// The mark in front of a key's chain ends.
const D_PBLK: u16 = 0x8080;

// The ends of all chains of eight keys in a row, by chain and key; behind the last chain they are
// zero. There is room for the 265 chains of the longest key, since no memory is asked for.
fn chain_ends<H: Hash>(origin: Origin, width: Width, first: u32) -> [[Row; 8]; 265]
    ensures { (i l : ℕ) → i < p (bits width) → l < 8 →
        slice_index_or (slice_index_or result i []) l []
        ≡ X H.hashed origin.id.bytes origin.seed.bytes ((first + l) % 2 ^ 32) i
        (2 ^ bits width - 1) }
{
    let top = last_position(width);
    let mut ends = [[[0; 32]; 8]; 265];
    for (i, rows) in ends[..chain_count(width)].iter_mut().enumerate() {
        *rows = Lanes::<H>::of_keys(origin.id, first, i as u16).rows_at(origin.seed, top);
    }
    ends
}

// The public key of key q, whose chain ends stand in lane l.
fn key_of_lane<H: Hash>(id: Identifier, q: u32, ends: &[[Row; 8]], l: usize) -> Row
    requires { l < 8 }
    ensures { result ≡ one_time_key H.hashed id.bytes q
        (rows (length ends.now) (λ i. slice_index_or (slice_index_or ends.now i []) l [])) }
{
    let mut key = opened::<H>(id, q, D_PBLK);
    for rows in ends {
        key.feed(&rows[l]);
    }
    key.close()
}

/// The public keys of eight one-time keys in a row, from key `first` on (RFC 8554, 4.3); their
/// numbers wrap, as their four bytes do.
pub fn public_keys<H: Hash>(origin: Origin, width: Width, first: u32) -> [Row; 8]
    ensures { (l : ℕ) → l < 8 → slice_index_or result l []
        ≡ public_key H.hashed origin.id.bytes origin.seed.bytes (bits width)
        ((first + l) % 2 ^ 32) }
{
    let all = chain_ends::<H>(origin, width, first);
    let ends = &all[..chain_count(width)];
    array::from_fn(
        |l| -> Row
            requires { l < 8 }
            ensures { result ≡ one_time_key H.hashed origin.id.bytes ((first + l) % 2 ^ 32)
                (rows (length ends.entry.now)
                (λ i. slice_index_or (slice_index_or ends.entry.now i []) l [])) }
        { key_of_lane::<H>(origin.id, first.wrapping_add(l as u32), ends, l) },
    )
}

/// The one-time public key to which a signature's rows lead, one row for each chain (RFC 8554, 4.6,
/// Algorithm 4b).
pub fn candidate_key<H: Hash>(
    id: Identifier,
    width: Width,
    q: u32,
    digest: &Row,
    rows: &[u8],
) -> Result<Row, Refusal>
    ensures answer { result_err result
        ≡ first_refusal (chain_checks (bits width) (length rows.now)) }
    ensures value { IfOk result (λ key. key ≡
        candidate_key H.hashed id.bytes (bits width) q digest.now (λ i. row_at i rows.now)) }
{
    let count = chain_count(width);
    if rows.len() != 32 * count {
        return Err(Refusal::Buffer);
    }
    let top = last_position(width);
    let positions = selection(width, digest);
    let mut key = opened::<H>(id, q, D_PBLK);
    for (i, y) in rows.as_chunks().0.iter().enumerate() {
        let chain = Chain { q, i: i as u16 };
        let end = walk::<H>(id, chain, positions[i], top, y);
        key.feed(&end);
    }
    Ok(key.close())
}
