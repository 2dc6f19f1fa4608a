// The incremental hash.
ghost use Rattle.hash.specs.Chaining.{Chain};
ghost use Rattle.shake256.specs.Fips202.{shake256 as standard};
ghost use Rattle.shake256.specs.State.{first, fed, closed};
ghost use Rattle.shake256.specs.View.{viewed};
ghost use Rattle.shake256.specs.Laws.{none_law, joined_law, whole_law, closed_long_law, closed_bytes_law, wide_law, ots_law, tree_law};

use crate::padding::add_last_bit;
use crate::pairs::end_eight;
use crate::state::{Lanes, squeeze};
use hash::Hash;
use hash::blocks::{Buffered, Chaining};

// The first byte of the padding: the bits 1111, the first bit 1 of pad10*1, and zeros.
const SUFFIX: u8 = 0x1f;

/// The state after the whole blocks, with the block that is not whole.
#[derive(Clone, Copy)]
pub struct Hasher {
    message: Buffered<Lanes, 136>,
}

impl Hash for Hasher {
    ghost State = { Chain };

    ghost state = { viewed };

    ghost first = { first };

    ghost fed = { fed };

    ghost closed = { closed };

    ghost hashed = { standard };

    ghost block = { 136 };

    ghost ots = { 9 };

    ghost tree = { 15 };

    ghost none = { none_law };

    ghost joined = { joined_law };

    ghost whole = { whole_law };

    ghost closed_long = { closed_long_law };

    ghost closed_bytes = { closed_bytes_law };

    ghost wide = { wide_law };

    ghost ots_low = { ots_law };

    ghost tree_low = { tree_law };

    fn block_len() -> usize {
        136
    }

    fn ots_base() -> u16 {
        9
    }

    fn tree_base() -> u16 {
        15
    }

    fn start() -> Hasher {
        Hasher {
            message: Buffered::new(Lanes([0; 25])),
        }
    }

    fn feed(&mut self, bytes: &[u8]) {
        self.message.feed(bytes);
    }

    fn close(self) -> [u8; 32] {
        let mut block = self.message.ended(SUFFIX);
        add_last_bit(&mut block);
        let mut lanes = self.message.chain;
        lanes.take_in(&block);
        squeeze(&[lanes.0[0], lanes.0[1], lanes.0[2], lanes.0[3]])
    }

    fn each(&self, tails: &[[u8; 64]; 8], len: usize) -> [[u8; 32]; 8] {
        let Some(lasts) = self.message.ended_each(tails, len, SUFFIX, 0) else {
            return self.one_by_one(tails, len);
        };
        end_eight(&self.message.chain.0, &lasts)
    }
}
