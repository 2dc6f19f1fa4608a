//! Messages that are taken in by blocks of N bytes.
ghost use Rattle.std.specs.Prelude.{◌≡◌, ◌↔◌, ℕ, ◌+◌, ◌-◌, ◌^◌, ◌<◌, ◌≤◌, min, List, [], ◌∷◌, ◌++◌, length, take, replicate, IsSome, IfSome, slice_index_or};
ghost use Rattle.hash.specs.Chaining.{link, chained};
ghost use Rattle.hash.specs.Buffers.{written, ended};

use crate::front;
use rows::put;
use std::alloc::AllocError;
use std::array;

/// A value that takes in one block of N bytes after the other.
pub trait Chaining<const N: usize>: Copy {
    // The numbers that the value is made of.
    ghost value: { Self → List ℕ };

    // The numbers after a block, from those before it.
    ghost after: { List ℕ → List ℕ → List ℕ };

    fn take_in(&mut self, block: &[u8; N])
        ensures { value self.new ≡ after (value self.old) block.now };

    // A block has a byte, and a size.
    ghost sized: { (0 < N) × (N < 2 ^ 63) };
}

/// A message that is taken in: the value after its whole blocks, and the block that is not whole,
/// the first `filled` bytes of the buffer.
// An array with a count, since a hash is copied in the middle of a message and has no heap.
pub struct Buffered<C, const N: usize> {
    pub chain: C,
    buffer: [u8; N],
    filled: usize,
    ghost whole: { length buffer ≡ N },
    ghost open: { filled < N },
}

// By hand: a derived `Clone` of a generic struct with a ghost field is refused
// (derive-over-ghost-field).
impl<C: Copy, const N: usize> Clone for Buffered<C, N> {
    ghost is_clone = { λ x y. y ≡ x };

    ghost is_infallible = { λ _. Unit {0} };

    fn clone(&self) -> Result<Self, AllocError> {
        Ok(*self)
    }
}

impl<C: Copy, const N: usize> Copy for Buffered<C, N> {}

impl<C: Chaining<N>, const N: usize> Buffered<C, N> {
    ghost use Rattle.hash.specs.Buffered.{held};

    /// Nothing so far.
    pub fn new(chain: C) -> Self
        ensures empty { held C.value result ≡ link (C.value chain) [] }
        ensures chain { result.chain ≡ chain }
    {
        Buffered {
            chain,
            buffer: [0; N],
            filled: 0,
        }
    }

    /// How many bytes more make the block whole.
    pub fn room(&self) -> usize
        ensures { result + length (held C.value self.now).tail ≡ N }
    {
        N - self.filled
    }

    /// Takes in some bytes more.
    pub fn feed(&mut self, bytes: &[u8])
        ensures { held C.value self.new ≡ chained N C.after (held C.value self.old) bytes.now }
    {
        let room = self.room();
        if bytes.len() < room {
            put(&mut self.buffer[..], self.filled, bytes);
            self.filled += bytes.len();
            return;
        }
        let (front, back) = bytes.split_at(room);
        put(&mut self.buffer[..], self.filled, front);
        self.chain.take_in(&self.buffer);
        let rest = take_blocks(&mut self.chain, back);
        put(&mut self.buffer[..], 0, rest);
        self.filled = rest.len();
    }

    /// The block that is not whole, ended by the byte `mark` and zeros.
    pub fn ended(&self, mark: u8) -> [u8; N]
        ensures { result ≡ ended N mark (held C.value self.now).tail }
    {
        marked(&self.buffer[..self.filled], self.filled, mark)
    }

    /// The block that is not whole, once for each tail: followed by the first `len` bytes of the
    /// tail (all 64 where `len` is more), and ended by the byte `mark` and zeros. There is none
    /// where fewer than `spare` zeros have room.
    pub fn ended_each(
        &self,
        tails: &[[u8; 64]; 8],
        len: usize,
        mark: u8,
        spare: usize,
    ) -> Option<[[u8; N]; 8]>
        ensures room { IsSome result
            ↔ (length (held C.value self.now).tail + min len 64 + spare < N) }
        ensures ends { IfSome result (λ blocks. (i : ℕ) → i < 8 →
            (slice_index_or blocks i [] ≡ ended N mark
            ((held C.value self.now).tail ++ take len (slice_index_or tails.now i [])))
            × (length (take len (slice_index_or tails.now i [])) ≡ min len 64)) }
    {
        let count = len.min(64);
        let room = self.room();
        if room <= count || room - count <= spare {
            return None;
        }
        let block = marked(&self.buffer[..self.filled], self.filled + count, mark);
        Some(with_each(&block, self.filled, tails, len))
    }
}

// Takes in the whole blocks at the front, straight from the input, and gives what is left.
fn take_blocks<'a, C: Chaining<N>, const N: usize>(chain: &mut C, bytes: &'a [u8]) -> &'a [u8]
    ensures chain { link (C.value chain.new) result.now
        ≡ chained N C.after (link (C.value chain.old) []) bytes.now }
    ensures short { length result.now < N }
{
    let (blocks, rest) = bytes.as_chunks::<N>();
    for block in blocks {
        chain.take_in(block);
    }
    rest
}

fn with<const N: usize>(block: &[u8; N], at: usize, bytes: &[u8]) -> [u8; N]
    requires { at + length bytes.now ≤ N }
    ensures { result ≡ written block.now at bytes.now }
{
    let mut block = *block;
    put(&mut block[..], at, bytes);
    block
}

// The block with the first `len` bytes of each tail (all 64 where `len` is more) written at `at`.
fn with_each<const N: usize>(
    block: &[u8; N],
    at: usize,
    tails: &[[u8; 64]; 8],
    len: usize,
) -> [[u8; N]; 8]
    requires { at + min len 64 ≤ N }
    ensures { (i : ℕ) → i < 8 →
        (slice_index_or result i []
        ≡ written block.now at (take len (slice_index_or tails.now i [])))
        × (length (take len (slice_index_or tails.now i [])) ≡ min len 64) }
{
    array::from_fn(
        |i| -> [u8; N]
            requires { (i < 8) × (at + min len 64 ≤ N) }
            ensures { (result
                ≡ written block.entry.now at (take len (slice_index_or tails.entry.now i [])))
                × (length (take len (slice_index_or tails.entry.now i [])) ≡ min len 64) }
        { with(block, at, front(&tails[i], len)) },
    )
}

// A block with `front` at its start, the byte `mark` at `at`, and zeros.
fn marked<const N: usize>(front: &[u8], at: usize, mark: u8) -> [u8; N]
    requires { (length front.now ≤ at) × (at < N) }
    ensures { result ≡ front.now
        ++ (replicate (at - length front.now) 0 ++ (mark ∷ replicate (N - 1 - at) 0)) }
{
    let mut block = [0; N];
    put(&mut block[..], 0, front);
    block[at] = mark;
    block
}
