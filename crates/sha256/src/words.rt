// The hash value, block by block, and as bytes.
ghost use Rattle.std.specs.Prelude.{◌≡◌};
ghost use Rattle.std.proofs.Common.{lit<};
ghost use Rattle.sha256_block.specs.Fips180.{compressed};
ghost use Rattle.sha256.specs.Fips180.{bytes_of};

use hash::blocks::Chaining;
use sha256_block::compress;

/// The hash value.
#[derive(Clone, Copy)]
pub(crate) struct Words(pub(crate) [u32; 8]);

impl Chaining<64> for Words {
    ghost value = { λ w. w.0 };

    ghost after = { compressed };

    ghost sized = { (lit< tt, lit< tt) };

    fn take_in(&mut self, block: &[u8; 64]) {
        compress(&mut self.0, block);
    }
}

// The hash value as bytes. Each hash joins its words by itself: one function for words of any size would have to say what it gives
// where they are not 32 bytes in all.
pub(crate) fn digest(words: &[u32; 8]) -> [u8; 32]
    ensures { result ≡ bytes_of words.now }
{
    let bytes = words.map(u32::to_be_bytes);
    let mut digest = [0; 32];
    digest.copy_from_slice(bytes.as_flattened());
    digest
}
