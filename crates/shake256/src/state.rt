// The state, block by block, and as bytes.
ghost use Rattle.std.specs.Prelude.{◌≡◌};
ghost use Rattle.std.proofs.Common.{lit<};
ghost use Rattle.shake256.specs.Fips202.{added, absorbed, squeezed};

use hash::blocks::Chaining;
use keccak::permute;

/// The state of 25 lanes.
#[derive(Clone, Copy)]
pub(crate) struct Lanes(pub(crate) [u64; 25]);

impl Chaining<136> for Lanes {
    ghost value = { λ s. s.0 };

    ghost after = { absorbed };

    ghost sized = { (lit< tt, lit< tt) };

    fn take_in(&mut self, block: &[u8; 136]) {
        add_block(&mut self.0, block);
        permute(&mut self.0);
    }
}

pub(crate) fn add_block(lanes: &mut [u64; 25], block: &[u8; 136])
    ensures { lanes.new ≡ added lanes.old block.now }
{
    let (words, _) = block.as_chunks::<8>();
    for (t, word) in words.iter().enumerate() {
        lanes[t] ^= u64::from_le_bytes(*word);
    }
}

// The first 32 bytes of the state, which are its first four lanes. Joined here, not by one function for both hashes: it would have
// to say what it gives where the parts are not 32 bytes in all.
pub(crate) fn squeeze(front: &[u64; 4]) -> [u8; 32]
    ensures { result ≡ squeezed front.now }
{
    let bytes = front.map(u64::to_le_bytes);
    let mut digest = [0; 32];
    digest.copy_from_slice(bytes.as_flattened());
    digest
}
