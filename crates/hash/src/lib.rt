//! An incremental hash of 32 bytes, and HMAC over any such hash.
#![tactic(auto)]

ghost use Rattle.std.specs.Prelude.{◌≡◌, ℕ, ◌^◌, ◌<◌, ◌≤◌, min, List, [], ◌++◌, length, take, slice_index_or};
ghost use Rattle.std.proofs.Common.{sym, ap, ◌∙◌, subst};
ghost use Rattle.rows.specs.Bytes.{Bytes};

use std::array;

pub mod blocks;
pub mod hmac;

/// A hash with a digest of 32 bytes.
///
/// The meaning of every call is a list of bytes: `hashed m` is the digest of the message `m` as the
/// hash's standard defines it.
pub trait Hash: Copy {
    // What a state stands for: two values that differ in bytes no longer of use may stand for one
    // state.
    ghost State: { Type 0 };

    ghost state: { Self → State };

    ghost first: { State };

    ghost fed: { State → List ℕ → State };

    ghost closed: { State → List ℕ };

    // The hash of a whole message.
    ghost hashed: { List ℕ → List ℕ };

    // The block length in bytes.
    ghost block: { ℕ };

    // The base of the LM-OTS type codes over this hash.
    ghost ots: { ℕ };

    // The base of the LMS type codes over this hash.
    ghost tree: { ℕ };

    fn block_len() -> usize
        ensures { result ≡ block };

    fn ots_base() -> u16
        ensures { result ≡ ots };

    fn tree_base() -> u16
        ensures { result ≡ tree };

    fn start() -> Self
        ensures { state result ≡ first };

    fn feed(&mut self, bytes: &[u8])
        ensures { state self.new ≡ fed (state self.old) bytes.now };

    fn close(self) -> [u8; 32]
        ensures { result ≡ closed (state self) };

    /// Eight messages that go on from one state, each by the first `len` bytes of its tail (all 64
    /// where `len` is more).
    // The length stands beside the tails: an interface's method has no const parameter, and a type
    // that bounds it would refuse calls that are allowed.
    fn each(&self, tails: &[[u8; 64]; 8], len: usize) -> [[u8; 32]; 8]
        ensures { (i : ℕ) → i < 8 → slice_index_or result i []
            ≡ closed (fed (state self.now) (take len (slice_index_or tails.now i []))) }
    {
        self.one_by_one(tails, len)
    }

    /// What `each` answers, one message after the other.
    fn one_by_one(&self, tails: &[[u8; 64]; 8], len: usize) -> [[u8; 32]; 8]
        ensures { (i : ℕ) → i < 8 → slice_index_or result i []
            ≡ closed (fed (state self.now) (take len (slice_index_or tails.now i []))) }
    {
        array::from_fn(
            |i| -> [u8; 32]
                requires { i < 8 }
                ensures { result ≡ closed
                    (fed (state self.entry.now) (take len (slice_index_or tails.entry.now i []))) }
            {
                // Not by `finish`: it asks for the whole interface, of which a default body has
                // only a part.
                let mut message = *self;
                message.feed(front(&tails[i], len));
                message.close()
            },
        )
    }

    ghost none: { (s : State) → fed s [] ≡ s };

    // A message may be fed in any pieces.
    ghost joined: { (s : State) (a b : List ℕ) → fed (fed s a) b ≡ fed s (a ++ b) };

    ghost whole: { (m : List ℕ) → hashed m ≡ closed (fed first m) };

    // What a state closes to is a digest, whether or not any message leads to it.
    ghost closed_long: { (s : State) → length (closed s) ≡ 32 };

    ghost closed_bytes: { (s : State) → Bytes (closed s) };

    // So a digest of a whole message is one, too.
    ghost long: { (m : List ℕ) → length (hashed m) ≡ 32 } = { λ m.
        ap length (whole m) ∙ closed_long (fed first m) };

    ghost bytes: { (m : List ℕ) → Bytes (hashed m) } = { λ m.
        subst Bytes (sym (whole m)) (closed_bytes (fed first m)) };

    ghost wide: { 32 ≤ block };

    ghost ots_low: { ots < 2 ^ 16 };

    ghost tree_low: { tree < 2 ^ 16 };
}

// The first `len` bytes of a tail, or all of it.
fn front(tail: &[u8; 64], len: usize) -> &[u8]
    ensures bytes { result.now ≡ take len tail.now }
    ensures count { length result.now ≡ min len 64 }
{
    &tail[..len.min(64)]
}

// The digest of a message of which `hash` has taken in all but `rest`.
fn finish<H: Hash>(mut hash: H, rest: &[u8]) -> [u8; 32]
    ensures { result ≡ H.closed (H.fed (H.state hash) rest.now) }
{
    hash.feed(rest);
    hash.close()
}

/// The digest of a whole message.
pub fn digest<H: Hash>(message: &[u8]) -> [u8; 32]
    ensures { result ≡ H.hashed message.now }
{
    finish(H::start(), message)
}
