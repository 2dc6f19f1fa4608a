// Eight blocks at once, one to a lane.
ghost use Rattle.std.specs.Prelude.{◌≡◌, ℕ, ◌<◌, [], slice_index, slice_index_or};
ghost use Rattle.simd_lanes.specs.Lane.{lane};
ghost use Rattle.sha256_block.specs.Fips180.{word, compressed};

use crate::rounds;
use crate::scalar::load;
use crate::word::Word;
use std::array;
use std::simd::prelude::*;

impl Word for u32x8 {
    ghost count = { 8 };

    ghost at = { λ i v. slice_index v i };

    fn splat(x: u32) -> Self {
        u32x8::splat(x)
    }

    fn add(self, other: Self) -> Self {
        self + other
    }

    fn xor(self, other: Self) -> Self {
        self ^ other
    }

    fn and(self, other: Self) -> Self {
        self & other
    }

    fn not(self) -> Self {
        !self
    }

    fn rotate(self, n: u32) -> Self {
        (self >> u32x8::splat(n)) | (self << u32x8::splat(32 - n))
    }

    fn shift(self, n: u32) -> Self {
        self >> u32x8::splat(n)
    }
}

// Word t of each block.
fn gather(blocks: &[[u8; 64]; 8], t: usize) -> u32x8
    requires { t < 16 }
    ensures { (i : ℕ) → i < 8 → slice_index result i ≡ word (slice_index_or blocks.now i []) t }
{
    u32x8::from_array(array::from_fn(|i| load(&blocks[i], t)))
}

// Room for the whole schedules, with the words of the blocks at their front: one function for one
// block and for eight would take a closure for where a word comes from, and a clause on it longer than the loop.
fn parse(blocks: &[[u8; 64]; 8]) -> [u32x8; 64]
    ensures { (t i : ℕ) → t < 16 → i < 8 → slice_index (slice_index_or result t []) i ≡ word (slice_index_or blocks.now i []) t }
{
    let mut words = [u32x8::splat(0); 64];
    for (t, word) in words[..16].iter_mut().enumerate() {
        *word = gather(blocks, t);
    }
    words
}

/// Takes one block into each of eight hash values: lane i has the words of hash value i.
pub fn compress_eight(hash: &mut [u32x8; 8], blocks: &[[u8; 64]; 8])
    ensures { (i : ℕ) → i < 8 → lane i hash.new ≡ compressed (lane i hash.old) (slice_index_or blocks.now i []) }
{
    rounds::compress(hash, &mut parse(blocks));
}
