// The end of the padding: the length of the message in bits.
ghost use Rattle.std.specs.Prelude.{◌≡◌, ℕ, ◌*◌, ◌%◌, ◌^◌, ◌<◌, [], ◌++◌, take, slice_index_or};
ghost use Rattle.sha256.specs.Fips180.{length64};

use std::array;

// The block with the number of bits in `count` bytes, modulo 2^64, at its end.
pub(crate) fn with_length(mut block: [u8; 64], count: u64) -> [u8; 64]
    ensures { result ≡ take 56 block ++ length64 (count * 8 % 2 ^ 64) }
{
    block[56..].copy_from_slice(&count.wrapping_mul(8).to_be_bytes());
    block
}

pub(crate) fn all_with_length(blocks: &[[u8; 64]; 8], count: u64) -> [[u8; 64]; 8]
    ensures { (i : ℕ) → i < 8 → slice_index_or result i [] ≡ take 56 (slice_index_or blocks.now i []) ++ length64 (count * 8 % 2 ^ 64) }
{
    array::from_fn(
        |i| -> [u8; 64]
            requires { i < 8 }
            ensures { result ≡ take 56 (slice_index_or blocks.entry.now i []) ++ length64 (count * 8 % 2 ^ 64) }
        { with_length(blocks[i], count) },
    )
}
