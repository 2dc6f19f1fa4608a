// Eight chains at a time, one in each lane of the hash.
ghost use Rattle.std.specs.Prelude.{◌≡◌, ℕ, ◌+◌, ◌%◌, ◌^◌, ◌<◌, ◌≤◌, List, [], ◌++◌, take, slice_index_or};
ghost use Rattle.rows.specs.Bytes.{u8str, u16str, u32str};
ghost use Rattle.lmots.specs.Lanes.{chain_at};
ghost use Rattle.lmots.specs.LmOts.{X, start};

use crate::single::START;
use hash::Hash;
use rows::{Identifier, Row, Seed, put};
use std::array;

// Chain i of key q.
#[derive(Clone, Copy)]
pub(crate) struct Chain {
    pub(crate) q: u32,
    pub(crate) i: u16,
}

// Which chain each lane holds; the hash has taken in the identifier.
#[derive(Drop)]
pub(crate) struct Lanes<H: Hash> {
    id: Identifier,
    head: H,
    chains: [Chain; 8],
    ghost goes_on: { (m : List ℕ) → H.closed (H.fed (H.state head) m) ≡ H.hashed (id.bytes ++ m) },
}

// The hash's state behind an identifier.
fn behind<H: Hash>(id: Identifier) -> H
    ensures { (m : List ℕ) → H.closed (H.fed (H.state result) m) ≡ H.hashed (id.bytes ++ m) }
{
    let mut head = H::start();
    head.feed(&id.bytes());
    head
}

// What a step hashes behind the identifier, in the first 39 bytes.
fn tail(chain: Chain, j: u8, x: &Row) -> [u8; 64]
    ensures { take 39 result ≡ u32str chain.q ++ u16str chain.i ++ u8str j ++ x.now }
{
    let mut tail = [0; 64];
    put(&mut tail, 0, &chain.q.to_be_bytes());
    put(&mut tail, 4, &chain.i.to_be_bytes());
    put(&mut tail, 6, &[j]);
    put(&mut tail, 7, x);
    tail
}

impl<H: Hash> Lanes<H> {
    // Chain i of eight keys in a row; their numbers wrap, as their four bytes do.
    pub(crate) fn of_keys(id: Identifier, first: u32, i: u16) -> Lanes<H>
        ensures tree { result.id ≡ id }
        ensures keys { (l : ℕ) → l < 8 → (chain_at l result.chains).q ≡ (first + l) % 2 ^ 32 }
        ensures chains { (l : ℕ) → l < 8 → (chain_at l result.chains).i ≡ i }
    {
        Lanes {
            id,
            head: behind(id),
            chains: array::from_fn(|l| Chain {
                q: first.wrapping_add(l as u32),
                i,
            }),
        }
    }

    // Eight chains in a row of key q.
    pub(crate) fn of_chains(id: Identifier, q: u32, first: u16) -> Lanes<H>
        requires { first + 8 ≤ 2 ^ 16 }
        ensures tree { result.id ≡ id }
        ensures keys { (l : ℕ) → l < 8 → (chain_at l result.chains).q ≡ q }
        ensures chains { (l : ℕ) → l < 8 → (chain_at l result.chains).i ≡ first + l }
    {
        Lanes {
            id,
            head: behind(id),
            chains: array::from_fn(|l| Chain {
                q,
                i: first + l as u16,
            }),
        }
    }

    // One step in each lane, all with the byte j.
    pub(crate) fn step(&self, j: u8, rows: &[Row; 8]) -> [Row; 8]
        ensures { (l : ℕ) → l < 8 → slice_index_or result l [] ≡ H.hashed (self.now.id.bytes
            ++ u32str (chain_at l self.now.chains).q ++ u16str (chain_at l self.now.chains).i
            ++ u8str j ++ slice_index_or rows.now l []) }
    {
        let tails = array::from_fn(
            |l| -> [u8; 64]
                requires { l < 8 }
                ensures { take 39 result ≡ u32str (chain_at l self.entry.now.chains).q
                    ++ u16str (chain_at l self.entry.now.chains).i
                    ++ u8str j ++ slice_index_or rows.entry.now l [] }
            { tail(self.chains[l], j, &rows[l]) },
        );
        self.head.each(&tails, 39)
    }

    // The starts of the chains.
    pub(crate) fn starts(&self, seed: Seed) -> [Row; 8]
        ensures { (l : ℕ) → l < 8 → slice_index_or result l []
            ≡ start H.hashed self.now.id.bytes seed.bytes
            (chain_at l self.now.chains).q (chain_at l self.now.chains).i }
    {
        self.step(START, &[seed.bytes(); 8])
    }

    // The rows at one position of the chains.
    pub(crate) fn rows_at(&self, seed: Seed, position: u8) -> [Row; 8]
        ensures { (l : ℕ) → l < 8 → slice_index_or result l []
            ≡ X H.hashed self.now.id.bytes seed.bytes
            (chain_at l self.now.chains).q (chain_at l self.now.chains).i position }
    {
        // Not by `fold`: a step tells its eight rows one by one, and is no function of the rows
        // that a fold could repeat.
        let mut rows = self.starts(seed);
        for j in 0..position {
            rows = self.step(j, &rows);
        }
        rows
    }
}
