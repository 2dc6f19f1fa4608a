// A ledger of 1,024 bits, one a key of the taller tree, in an array: no memory is asked for.
ghost use Rattle.std.specs.Prelude.{◌≡◌};
ghost use Rattle.sizes.specs.Sizes.{levels};
ghost use Rattle.ledger.specs.Marks.{of_bitmap, height_of, bitmap_after};
ghost use Rattle.ledger.specs.Standing.{Fresh};

use crate::interface::Ledger;
use crate::refusal::Refusal;
use sizes::Height;

/// A ledger that keeps a mark for each key of a tree, and has always room for all of them.
///
/// It cannot be copied: with a copy, a program could spend one key twice.
#[derive(Drop)]
pub struct Bitmap {
    marks: [u8; 128],
    height: Height,
}

impl Bitmap {
    /// A ledger in which every key of a tree is free, and every other number is spent.
    pub fn new(height: Height) -> Bitmap
        ensures fresh { Fresh (levels height) (of_bitmap result) }
        ensures height { height_of result ≡ height }
    {
        Bitmap {
            marks: [0u8; 128],
            height,
        }
    }
}

impl Ledger for Bitmap {
    ghost standing = { of_bitmap };

    ghost after_spend = { bitmap_after };

    fn spent(&self, key: u32) -> bool {
        key >= self.height.keys() || (self.marks[(key / 8) as usize] >> (key % 8)) & 1 == 1
    }

    fn room(&self) -> usize {
        self.height.keys() as usize
    }

    fn spend(&mut self, key: u32) -> Result<(), Refusal> {
        if (*self).spent(key) {
            return Err(Refusal::Spent);
        }
        self.marks[(key / 8) as usize] |= 1 << (key % 8);
        Ok(())
    }
}
