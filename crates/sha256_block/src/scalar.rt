// One block.
ghost use Rattle.std.specs.Prelude.{◌≡◌, ℕ, ◌+◌, ◌*◌, ◌<◌, slice_index};
ghost use Rattle.sha256_block.specs.Fips180.{word, compressed};

use crate::rounds;
use crate::word::Word;

impl Word for u32 {
    ghost count = { 1 };

    ghost at = { λ i x. x };

    fn splat(x: u32) -> Self {
        x
    }

    fn add(self, other: Self) -> Self {
        self.wrapping_add(other)
    }

    fn xor(self, other: Self) -> Self {
        self ^ other
    }

    fn and(self, other: Self) -> Self {
        self & other
    }

    fn not(self) -> Self {
        !self
    }

    fn rotate(self, n: u32) -> Self {
        self.rotate_right(n)
    }

    fn shift(self, n: u32) -> Self {
        self >> n
    }
}

// Word t of a block.
pub(crate) fn load(block: &[u8; 64], t: usize) -> u32
    requires { t < 16 }
    ensures { result ≡ word block.now t }
{
    let (words, _) = block.as_chunks::<4>();
    u32::from_be_bytes(words[t])
}

// Room for the whole schedule, with the words of the block at its front.
fn parse(block: &[u8; 64]) -> [u32; 64]
    ensures { (t : ℕ) → t < 16 → slice_index result t ≡ word block.now t }
{
    let mut words = [0; 64];
    for (t, word) in words[..16].iter_mut().enumerate() {
        *word = load(block, t);
    }
    words
}

/// Takes one block into the hash value.
pub fn compress(hash: &mut [u32; 8], block: &[u8; 64])
    ensures { hash.new ≡ compressed hash.old block.now }
{
    rounds::compress(hash, &mut parse(block));
}
