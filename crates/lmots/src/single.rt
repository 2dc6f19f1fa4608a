// One row at a time: the steps of a chain, its start, and the digest of a message.
ghost use Rattle.std.specs.Prelude.{◌≡◌, ◌-◌, ◌≤◌, ◌++◌, length};
ghost use Rattle.rows.specs.Bytes.{u8str, u16str, u32str};
ghost use Rattle.lmots.specs.LmOts.{chain as walked, digest, prefix, start};

use crate::lanes::Chain;
use crate::opening::opened;
use hash::Hash;
use rows::{Identifier, Origin, Row};

// The byte that a chain's start has instead of a position.
pub(crate) const START: u8 = 0xff;

// The index that a key's prefix has instead of a chain's.
const PREFIX: u16 = 0xfffd;

// The mark in front of a message.
const D_MESG: u16 = 0x8181;

// One step of a chain.
fn step<H: Hash>(id: Identifier, chain: Chain, j: u8, x: &Row) -> Row
    ensures { result ≡ H.hashed (id.bytes ++ u32str chain.q ++ u16str chain.i ++ u8str j ++ x.now) }
{
    let mut h = opened::<H>(id, chain.q, chain.i);
    h.feed(&[j]);
    h.feed(x);
    h.close()
}

// The steps of a chain from one position to another.
pub(crate) fn walk<H: Hash>(id: Identifier, chain: Chain, from: u8, to: u8, x: &Row) -> Row
    requires { from ≤ to }
    ensures { result ≡ walked H.hashed id.bytes chain.q chain.i from (to - from) x.now }
{
    (from..to).fold(
        *x,
        |y, j| -> Row
            ensures { result
                ≡ H.hashed (id.bytes ++ u32str chain.q ++ u16str chain.i ++ u8str j ++ y) }
        { step::<H>(id, chain, j, &y) },
    )
}

// The start of a chain.
pub(crate) fn chain_start<H: Hash>(origin: Origin, chain: Chain) -> Row
    ensures { result ≡ start H.hashed origin.id.bytes origin.seed.bytes chain.q chain.i }
{
    step::<H>(origin.id, chain, START, &origin.seed.bytes())
}

/// The prefix C of key q, by the formula of a chain's start (RFC 8554, Appendix A) at index fffd.
pub fn prefix_of<H: Hash>(origin: Origin, q: u32) -> Row
    ensures { result ≡ prefix H.hashed origin.id.bytes origin.seed.bytes q }
{
    chain_start::<H>(origin, Chain { q, i: PREFIX })
}

/// The digest of a message for key q, which is what is signed (RFC 8554, 4.5).
pub fn digest_of<H: Hash>(id: Identifier, q: u32, prefix: &Row, message: &[u8]) -> Row
    ensures value { result ≡ digest H.hashed id.bytes q prefix.now message.now }
    ensures named { length id.bytes ≡ 16 }
{
    let mut h = opened::<H>(id, q, D_MESG);
    h.feed(prefix);
    h.feed(message);
    h.close()
}
