// The last blocks of eight messages at once.
ghost use Rattle.std.specs.Prelude.{◌≡◌, ℕ, ◌<◌, [], replicate, slice_index, slice_index_or};
ghost use Rattle.sha256_block.specs.Fips180.{compressed};
ghost use Rattle.sha256.specs.Fips180.{bytes_of};
ghost use Rattle.simd_lanes.specs.Lane.{lane};

use crate::words::digest;
use sha256_block::compress_eight;
use std::array;
use std::simd::prelude::*;

// One hash value in each lane.
fn spread(words: &[u32; 8]) -> [u32x8; 8]
    ensures { (i : ℕ) → i < 8 → lane i result ≡ words.now }
{
    array::from_fn(
        |t| -> u32x8
            requires { t < 8 }
            ensures { result ≡ replicate 8 (slice_index words.entry.now t) }
        { u32x8::splat(words[t]) },
    )
}

fn rows(hash: &[u32x8; 8]) -> [[u32; 8]; 8]
    ensures { result ≡ hash.now }
{
    array::from_fn(
        |t| -> [u32; 8]
            requires { t < 8 }
            ensures { result ≡ slice_index_or hash.entry.now t [] }
        { hash[t].to_array() },
    )
}

fn digest_of_lane(hash: &[[u32; 8]; 8], i: usize) -> [u8; 32]
    requires { i < 8 }
    ensures { result ≡ bytes_of (lane i hash.now) }
{
    digest(&array::from_fn(|k| hash[k][i]))
}

// The digests of eight messages, from the hash value before their last blocks.
pub(crate) fn end_eight(words: &[u32; 8], blocks: &[[u8; 64]; 8]) -> [[u8; 32]; 8]
    ensures { (i : ℕ) → i < 8 → slice_index_or result i [] ≡ bytes_of (compressed words.now (slice_index_or blocks.now i [])) }
{
    let mut hash = spread(words);
    compress_eight(&mut hash, blocks);
    let rows = rows(&hash);
    array::from_fn(
        |i| -> [u8; 32]
            requires { i < 8 }
            ensures { result ≡ bytes_of (lane i rows) }
        { digest_of_lane(&rows, i) },
    )
}
