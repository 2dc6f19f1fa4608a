// The last blocks of eight messages, two at once.
ghost use Rattle.std.specs.Prelude.{◌≡◌, ℕ, ◌∷◌, [], ◌<◌, bit_xor, slice_index, slice_index_or, slice_set};
ghost use Rattle.shake256.specs.Fips202.{absorbed, squeezed};
ghost use Rattle.simd_lanes.specs.Lane.{lane};

use crate::padding::add_last_bit;
use crate::state::{add_block, squeeze};
use keccak::permute_two;
use std::array;
use std::simd::prelude::*;

fn paired(p: &[u64; 25], q: &[u64; 25]) -> [u64x2; 25]
    ensures left { lane 0 result ≡ p.now }
    ensures right { lane 1 result ≡ q.now }
{
    array::from_fn(
        |t| -> u64x2
            requires { t < 25 }
            ensures { result ≡ slice_index p.entry.now t ∷ slice_index q.entry.now t ∷ [] }
        { u64x2::from_array([p[t], q[t]]) },
    )
}

fn squeeze_lane(lanes: &[u64x2; 25], i: usize) -> [u8; 32]
    requires { i < 2 }
    ensures { result ≡ squeezed (lane i lanes.now) }
{
    let front = array::from_fn(
        |t| -> u64
            requires { (t < 4) × (i < 2) }
            ensures { result ≡ slice_index (slice_index_or lanes.entry.now t []) i }
        { lanes[t].to_array()[i] },
    );
    squeeze(&front)
}

// The digests of two messages, from the state before their last blocks, of which only the last bit is missing.
fn end_two(lanes: &[u64; 25], p: &[u8; 136], q: &[u8; 136]) -> ([u8; 32], [u8; 32])
    ensures left { result.0 ≡ squeezed (absorbed lanes.now (slice_set p.now 135 (bit_xor (slice_index p.now 135) 0x80))) }
    ensures right { result.1 ≡ squeezed (absorbed lanes.now (slice_set q.now 135 (bit_xor (slice_index q.now 135) 0x80))) }
{
    let (mut p, mut q) = (*p, *q);
    add_last_bit(&mut p);
    add_last_bit(&mut q);
    let (mut left, mut right) = (*lanes, *lanes);
    add_block(&mut left, &p);
    add_block(&mut right, &q);
    let mut states = paired(&left, &right);
    permute_two(&mut states);
    (squeeze_lane(&states, 0), squeeze_lane(&states, 1))
}

// The digests of eight messages, from the state before their last blocks, of which only the last bit is missing.
// The pairs are written out: made by `from_fn` they would be four pairs, to be flattened and their number proved.
pub(crate) fn end_eight(lanes: &[u64; 25], blocks: &[[u8; 136]; 8]) -> [[u8; 32]; 8]
    ensures { (i : ℕ) → i < 8 → slice_index_or result i [] ≡ squeezed (absorbed lanes.now (slice_set (slice_index_or blocks.now i []) 135 (bit_xor (slice_index (slice_index_or blocks.now i []) 135) 0x80))) }
{
    let (a, b) = end_two(lanes, &blocks[0], &blocks[1]);
    let (c, d) = end_two(lanes, &blocks[2], &blocks[3]);
    let (e, f) = end_two(lanes, &blocks[4], &blocks[5]);
    let (g, h) = end_two(lanes, &blocks[6], &blocks[7]);
    [a, b, c, d, e, f, g, h]
}
