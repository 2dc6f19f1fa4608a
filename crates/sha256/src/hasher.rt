// The incremental hash.
ghost use Rattle.std.specs.Prelude.{◌≡◌, ◌%◌};
ghost use Rattle.sha256.specs.Fips180.{sha256 as standard};
ghost use Rattle.sha256.specs.State.{State, first, fed, closed};
ghost use Rattle.sha256.specs.Laws.{none_law, joined_law, whole_law, closed_long_law, closed_bytes_law, wide_law, ots_law, tree_law};

use crate::eight::end_eight;
use crate::padding::{all_with_length, with_length};
use crate::words::{Words, digest};
use hash::Hash;
use hash::blocks::{Buffered, Chaining};

// FIPS 180-4, section 5.3.3.
const INITIAL: [u32; 8] = [
    0x6a09e667, 0xbb67ae85, 0x3c6ef372, 0xa54ff53a, 0x510e527f, 0x9b05688c, 0x1f83d9ab, 0x5be0cd19,
];

// The first byte of the padding: the bit 1 and zeros.
const MARK: u8 = 0x80;

/// The hash value after the whole blocks, with the block that is not whole, and the number of bytes so far.
#[derive(Clone, Copy)]
pub struct Hasher {
    message: Buffered<Words, 64>,
    count: u64,
    ghost counted: { message.filled ≡ count % 64 },
}

impl Hash for Hasher {
    ghost use Rattle.sha256.specs.View.{viewed};

    ghost State = { State };

    ghost state = { viewed };

    ghost first = { first };

    ghost fed = { fed };

    ghost closed = { closed };

    ghost hashed = { standard };

    ghost block = { 64 };

    ghost ots = { 1 };

    ghost tree = { 5 };

    ghost none = { none_law };

    ghost joined = { joined_law };

    ghost whole = { whole_law };

    ghost closed_long = { closed_long_law };

    ghost closed_bytes = { closed_bytes_law };

    ghost wide = { wide_law };

    ghost ots_low = { ots_law };

    ghost tree_low = { tree_law };

    fn block_len() -> usize {
        64
    }

    fn ots_base() -> u16 {
        1
    }

    fn tree_base() -> u16 {
        5
    }

    fn start() -> Hasher {
        Hasher {
            message: Buffered::new(Words(INITIAL)),
            count: 0,
        }
    }

    fn feed(&mut self, bytes: &[u8]) {
        self.message.feed(bytes);
        self.count = self.count.wrapping_add(bytes.len() as u64);
    }

    fn close(self) -> [u8; 32] {
        let mut words = self.message.chain;
        let mut block = self.message.ended(MARK);
        if self.message.room() < 9 {
            words.take_in(&block);
            block = [0; 64];
        }
        words.take_in(&with_length(block, self.count));
        digest(&words.0)
    }

    fn each(&self, tails: &[[u8; 64]; 8], len: usize) -> [[u8; 32]; 8] {
        let Some(blocks) = self.message.ended_each(tails, len, MARK, 8) else {
            return self.one_by_one(tails, len);
        };
        let count = self.count.wrapping_add(len as u64);
        let blocks = all_with_length(&blocks, count);
        end_eight(&self.message.chain.0, &blocks)
    }
}
