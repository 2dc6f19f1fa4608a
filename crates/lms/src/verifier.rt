// Whether a root accepts a signature of a message.
ghost use Rattle.std.specs.Prelude.{◌≡◌, ◌+◌, ◌*◌, ◌^◌, ◌<◌, ◌≤◌, true, ◌&&◌, length, MatchOption, ◌==◌};
ghost use Rattle.rows.specs.Bytes.{part, row_at, str_to_u32};
ghost use Rattle.sizes.specs.Sizes.{bits, levels};
ghost use Rattle.lmots.specs.LmOts.{p};
ghost use Rattle.lms.specs.Accepted.{Accepted};
ghost use Rattle.lms.specs.Lms.{accepts, accepts_as, candidate_root, root_length, signature_length};

use crate::codes::{height_of, width_of};
use crate::nodes::{climb, leaf};
use crate::reading::ROOT_LENGTH;
use crate::signing::signature_length;
use hash::Hash;
use lmots::{candidate_key, chain_count, digest_of};
use rows::{Identifier, Row, row_at};
use sizes::{Height, Width};

/// The most bytes of a message that is signed or accepted.
pub const LONGEST: usize = 65536;

fn u32_at(bytes: &[u8], at: usize) -> u32
    requires { at + 4 ≤ length bytes.now }
    ensures { result ≡ str_to_u32 (part at 4 bytes.now) }
{
    u32::from_be_bytes(*bytes[at..].first_chunk().unwrap())
}

// The identifier in a root.
fn identifier_of(root: &[u8]) -> Identifier
    requires { 24 ≤ length root.now }
    ensures { result.bytes ≡ part 8 16 root.now }
{
    Identifier::new(*root[8..].first_chunk().unwrap())
}

// The topmost node to which a signature leads.
fn candidate_root<H: Hash>(
    id: Identifier,
    height: Height,
    width: Width,
    q: u32,
    message: &[u8],
    sig: &[u8],
) -> Row
    requires small { q < 2 ^ levels height }
    requires long { length sig.now ≡ signature_length (levels height) (bits width) }
    ensures { result ≡ candidate_root H.hashed id.bytes (levels height) (bits width) q
        (part 8 32 sig.now) message.now
        (λ i. row_at i (part 40 (32 * p (bits width)) sig.now))
        (λ k. row_at k (part (44 + 32 * p (bits width)) (32 * levels height) sig.now)) }
{
    let digest = digest_of::<H>(id, q, &row_at(sig, 8), message);
    let end = 40 + 32 * chain_count(width);
    let r = height.keys() + q;
    let key = candidate_key::<H>(id, width, q, &digest, &sig[40..end]).unwrap();
    climb::<H>(id, r, &leaf::<H>(id, r, &key), sig[end + 4..].as_chunks().0)
}

// Whether a signature has the root's two codes, the tree code at its place.
fn codes_agree(root: &[u8], sig: &[u8], place: usize) -> bool
    requires root { 8 ≤ length root.now }
    requires sig { 8 ≤ length sig.now }
    requires inside { place + 4 ≤ length sig.now }
    ensures { result ≡ ((str_to_u32 (part 4 4 sig.now) == str_to_u32 (part 4 4 root.now))
        && str_to_u32 (part place 4 sig.now) == str_to_u32 (part 0 4 root.now)) }
{
    u32_at(sig, 4) == u32_at(root, 4) && u32_at(sig, place) == u32_at(root, 0)
}

// The number of the leaf that a signature names, where the tree has it.
fn leaf_of(height: Height, sig: &[u8]) -> Option<u32>
    requires { 4 ≤ length sig.now }
    ensures { MatchOption result (2 ^ levels height ≤ str_to_u32 (part 0 4 sig.now))
        (λ q. (q ≡ str_to_u32 (part 0 4 sig.now)) × (q < 2 ^ levels height)) }
{
    let q = u32_at(sig, 0);
    (q < height.keys()).then_some(q)
}

// Whether a root of this height and width accepts a signature of a message.
fn verify_as<H: Hash>(root: &[u8], message: &[u8], sig: &[u8], height: Height, width: Width) -> bool
    requires { length root.now ≡ root_length }
    ensures { result
        ≡ accepts_as H.hashed root.now message.now sig.now (levels height) (bits width) }
{
    let end = 40 + 32 * chain_count(width);
    if sig.len() != signature_length(height, width) {
        return false;
    }
    if !codes_agree(root, sig, end) {
        return false;
    }
    let Some(q) = leaf_of(height, sig) else {
        return false;
    };
    row_at(root, 24) == candidate_root::<H>(identifier_of(root), height, width, q, message, sig)
}

// All that is asked of a signature.
fn decide<H: Hash>(root: &[u8], message: &[u8], sig: &[u8]) -> bool
    ensures { result ≡ accepts H.hashed H.ots H.tree root.now message.now sig.now }
{
    if message.len() > LONGEST || root.len() != ROOT_LENGTH {
        return false;
    }
    let Some(height) = height_of::<H>(u32_at(root, 0)) else {
        return false;
    };
    let Some(width) = width_of::<H>(u32_at(root, 4)) else {
        return false;
    };
    verify_as::<H>(root, message, sig, height, width)
}

/// Whether a root accepts a signature of a message (RFC 8554, 5.4.2, Algorithm 6): exactly if the
/// two have the layout and lead to one node. Bytes of any length get a yes or a no.
pub fn verify<H: Hash>(root: &[u8], message: &[u8], sig: &[u8]) -> bool
    ensures value { result ≡ accepts H.hashed H.ots H.tree root.now message.now sig.now }
    ensures sound { result ≡ true → Accepted H.hashed H.ots H.tree root.now message.now sig.now }
    ensures complete { Accepted H.hashed H.ots H.tree root.now message.now sig.now → result ≡ true }
{
    decide::<H>(root, message, sig)
}
