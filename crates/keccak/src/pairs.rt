// Two states at once, one to a lane of the vectors.
ghost use Rattle.std.specs.Prelude.{◌≡◌, ℕ, ◌<◌, slice_index};
ghost use Rattle.simd_lanes.specs.Lane.{lane};
ghost use Rattle.keccak.specs.Fips202.{permuted};

use crate::rounds;
use crate::word::Word;
use std::simd::prelude::*;

impl Word for u64x2 {
    ghost count = { 2 };

    ghost at = { λ i v. slice_index v i };

    fn splat(x: u64) -> Self {
        u64x2::splat(x)
    }

    fn xor(self, other: Self) -> Self {
        self ^ other
    }

    fn and(self, other: Self) -> Self {
        self & other
    }

    fn not(self) -> Self {
        !self
    }

    fn rotate(self, n: u32) -> Self {
        let n = n as u64;
        (self << u64x2::splat(n)) | (self >> u64x2::splat(64 - n))
    }
}

/// Applies Keccak-f[1600] to two states: lane i of the vectors has the lanes of state i.
pub fn permute_two(a: &mut [u64x2; 25])
    ensures { (i : ℕ) → i < 2 → lane i a.new ≡ permuted (lane i a.old) }
{
    rounds::permute(a);
}
