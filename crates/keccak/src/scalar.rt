// One state: 25 lanes of 64 bits, lane (x, y) at 5 y + x.
ghost use Rattle.std.specs.Prelude.{◌≡◌};
ghost use Rattle.keccak.specs.Fips202.{permuted};

use crate::rounds;
use crate::word::Word;

impl Word for u64 {
    ghost count = { 1 };

    ghost at = { λ i x. x };

    fn splat(x: u64) -> Self {
        x
    }

    fn xor(self, other: Self) -> Self {
        self ^ other
    }

    fn and(self, other: Self) -> Self {
        self & other
    }

    fn not(self) -> Self {
        !self
    }

    fn rotate(self, n: u32) -> Self {
        self.rotate_left(n)
    }
}

/// Applies Keccak-f[1600].
pub fn permute(a: &mut [u64; 25])
    ensures { a.new ≡ permuted a.old }
{
    rounds::permute(a);
}
