// The work that is measured. Messages differ from call to call and from lane to lane.
ghost use Rattle.std.specs.Prelude.{ℕ};

use hash::{Hash, digest};
use std::array;

pub(crate) const PIECE: usize = 16384;

// What a lane hashes next: its last digest, the round, the lane, and a few more bytes.
fn renew(message: &mut [u8; 64], digest: &[u8; 32], round: u64, lane: u8) {
    message[0..32].copy_from_slice(digest);
    message[32..40].copy_from_slice(&round.to_be_bytes());
    message[40] = lane;
}

fn pattern() -> [u8; PIECE] {
    array::from_fn(|i| (i % 251) as u8)
}

// One long message, piece by piece.
pub(crate) fn bulk<H: Hash>(pieces: u64) -> [u8; 32] {
    let mut piece = pattern();
    let mut hash = H::start();
    for round in 0..pieces {
        piece[0..8].copy_from_slice(&round.to_be_bytes());
        hash.feed(&piece);
    }
    hash.close()
}

// Messages of 55 bytes one after the other, each with the digest of the one before it.
pub(crate) fn singly<F: FnMut(&[u8]) -> [u8; 32]>(count: u64, mut hashed: F) -> [u8; 32]
    requires { F.IsAlwaysCallable hashed }
{
    let mut message = [0x5a; 64];
    let mut digest = [0; 32];
    for round in 0..count {
        renew(&mut message, &digest, round, 0);
        digest = hashed(&message[0..55]);
    }
    digest
}

// The same in eight lanes; the digest is of the last eight.
pub(crate) fn by_eight<H: Hash, F: FnMut(&[[u8; 64]; 8]) -> [[u8; 32]; 8]>(
    count: u64,
    mut hashed: F,
) -> [u8; 32]
    requires { F.IsAlwaysCallable hashed }
{
    let mut messages = [[0x5a; 64]; 8];
    let mut digests = [[0; 32]; 8];
    for round in 0..count {
        for (lane, (message, digest)) in messages.iter_mut().zip(&digests).enumerate() {
            renew(message, digest, round, lane as u8);
        }
        digests = hashed(&messages);
    }
    digest::<H>(digests.as_flattened())
}
