//! HMAC (RFC 2104) over any hash, with keys of 32 bytes.
ghost use Rattle.std.specs.Prelude.{◌≡◌, ℕ, ◌-◌, ◌<◌, List, [], ◌++◌, map, length, take, replicate, bit_xor, slice_index_or};
ghost use Rattle.hash.specs.Rfc2104.{hmac_of, masked, Keyed};

use crate::{Hash, finish};

const INNER: u8 = 0x36;

const OUTER: u8 = 0x5c;

/// A key that the two hashes have taken in already, so that a text costs no block of the key.
#[derive(Clone, Copy)]
pub struct HmacKey<H> {
    inner: H,
    outer: H,
}

impl<H: Hash> HmacKey<H> {
    /// Takes in the key, masked, on both sides.
    pub fn new(key: &[u8; 32]) -> Self
        ensures { Keyed H.first H.fed H.block
            key.now (H.state result.inner) (H.state result.outer) }
    {
        HmacKey {
            inner: took_key(key, INNER),
            outer: took_key(key, OUTER),
        }
    }

    /// The MAC of a text.
    pub fn mac(&self, text: &[u8]) -> [u8; 32]
        ensures states { result ≡ H.closed (H.fed (H.state self.now.outer)
            (H.closed (H.fed (H.state self.now.inner) text.now))) }
        ensures keyed { (key : List ℕ) →
            Keyed H.first H.fed H.block key (H.state self.now.inner) (H.state self.now.outer) →
            result ≡ hmac_of H.hashed H.block key text.now }
    {
        nested(self.inner, self.outer, text)
    }

    /// Eight MACs, each of the first `len` bytes of its text (all 64 where `len` is more).
    pub fn mac_each(&self, texts: &[[u8; 64]; 8], len: usize) -> [[u8; 32]; 8]
        ensures states { (i : ℕ) → i < 8 → slice_index_or result i []
            ≡ H.closed (H.fed (H.state self.now.outer) (H.closed
            (H.fed (H.state self.now.inner) (take len (slice_index_or texts.now i []))))) }
        ensures keyed { (key : List ℕ) →
            Keyed H.first H.fed H.block key (H.state self.now.inner) (H.state self.now.outer) →
            (i : ℕ) → i < 8 → slice_index_or result i []
            ≡ hmac_of H.hashed H.block key (take len (slice_index_or texts.now i [])) }
    {
        let digests = self.inner.each(texts, len);
        self.outer.each(&digests.map(widened), 32)
    }
}

// The outer hash over the digest of the inner one.
fn nested<H: Hash>(inner: H, outer: H, text: &[u8]) -> [u8; 32]
    ensures { result
        ≡ H.closed (H.fed (H.state outer) (H.closed (H.fed (H.state inner) text.now))) }
{
    finish(outer, &finish(inner, text))
}

// A digest at the front of 64 bytes.
fn widened(digest: [u8; 32]) -> [u8; 64]
    ensures { (result ≡ digest ++ replicate 32 0) × (length digest ≡ 32) }
{
    let mut wide = [0u8; 64];
    wide[0..32].copy_from_slice(&digest);
    wide
}

// The hash that has taken in the key, filled up with zeros to a block, with each byte masked.
fn took_key<H: Hash>(key: &[u8; 32], mask: u8) -> H
    ensures { H.state result ≡ H.fed H.first (masked mask H.block key.now) }
{
    let mut hash = H::start();
    hash.feed(&key.map(|byte| byte ^ mask));
    let filler = [mask; 32];
    let left = H::block_len() - 32;
    for _ in 0..left / 32 {
        hash.feed(&filler);
    }
    hash.feed(&filler[..left % 32]);
    hash
}

/// The HMAC of a text under a key.
pub fn hmac<H: Hash>(key: &[u8; 32], text: &[u8]) -> [u8; 32]
    ensures { result ≡ hmac_of H.hashed H.block key.now text.now }
{
    let keyed: HmacKey<H> = HmacKey::new(key);
    keyed.mac(text)
}
