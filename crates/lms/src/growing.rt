// Growing a tree: its leaves eight at a time, and then every node from the two below it.
ghost use Rattle.std.specs.Prelude.{◌≡◌, ℕ, ◌+◌, ◌*◌, ◌^◌, ◌<◌, ◌≤◌, List, [], length, IfOk, slice_index_or};
ghost use Rattle.sizes.specs.Sizes.{bits, levels};
ghost use Rattle.lms.specs.Lms.{inner_node, leaf_node};
ghost use Rattle.lms.specs.Nodes.{Filled};

use crate::kept::Tree;
use crate::nodes::{inner, leaf};
use hash::Hash;
use lmots::public_keys;
use rows::{Identifier, Origin, Row};
use sizes::{Height, Width};
use std::alloc::{AllocError, Global};
use std::marker::PhantomData;

// The leaves of eight public keys, from node r on.
fn fill_eight<H: Hash>(id: Identifier, r: usize, keys: &[Row; 8], nodes: &mut [Row])
    requires room { r + 8 ≤ length nodes.old }
    requires low { r < 2 ^ 16 }
    ensures new { (l : ℕ) → l < 8 → slice_index_or nodes.new (r + l) []
        ≡ leaf_node H.hashed id.bytes (r + l) (slice_index_or keys.now l []) }
    ensures old { (m : ℕ) → m < r → slice_index_or nodes.new m [] ≡ slice_index_or nodes.old m [] }
{
    for (l, key) in keys.iter().enumerate() {
        nodes[r + l] = leaf::<H>(id, (r + l) as u32, key);
    }
}

// All leaves.
fn fill_leaves<H: Hash>(origin: Origin, height: Height, width: Width, nodes: &mut [Row])
    requires { length nodes.old ≡ 2 ^ levels height * 2 }
    ensures { Filled H.hashed origin.id.bytes origin.seed.bytes (levels height) (bits width)
        (2 ^ levels height) nodes.new }
{
    let first = height.keys();
    for key in (0..first).step_by(8) {
        let keys = public_keys::<H>(origin, width, key);
        fill_eight::<H>(origin.id, (first + key) as usize, &keys, nodes);
    }
}

// Node r, from the two nodes below it.
fn above<H: Hash>(id: Identifier, r: usize, nodes: &[Row]) -> Row
    requires inside { 2 * r + 1 < length nodes.now }
    requires low { r < 2 ^ 16 }
    ensures { result ≡ inner_node H.hashed id.bytes r
        (slice_index_or nodes.now (2 * r) []) (slice_index_or nodes.now (2 * r + 1) []) }
{
    inner::<H>(id, r as u32, &nodes[2 * r], &nodes[2 * r + 1])
}

// All nodes above the leaves, from the lowest up to the root.
fn fill_inner<H: Hash>(id: Identifier, height: Height, nodes: &mut [Row])
    requires { length nodes.old ≡ 2 ^ levels height * 2 }
    ensures { (seed : List ℕ) (w : ℕ) →
        Filled H.hashed id.bytes seed (levels height) w (2 ^ levels height) nodes.old →
        Filled H.hashed id.bytes seed (levels height) w 1 nodes.new }
{
    // A node's number is hashed, and names the two nodes below it in the same slice.
    for r in (1..height.keys() as usize).rev() {
        nodes[r] = above::<H>(id, r, nodes);
    }
}

impl<H: Hash> Tree<H> {
    /// The tree of an identifier and a seed, unless there is no memory for it.
    pub fn grow(
        heap: Global,
        height: Height,
        width: Width,
        origin: Origin,
    ) -> Result<Tree<H>, AllocError>
        ensures { IfOk result (λ t. (t.height ≡ height) × (t.width ≡ width) × (t.origin ≡ origin)) }
    {
        let mut nodes = vec![in heap; [0u8; 32]; 2 * height.keys() as usize]?;
        fill_leaves::<H>(origin, height, width, &mut nodes);
        fill_inner::<H>(origin.id, height, &mut nodes);
        Ok(Tree {
            height,
            width,
            origin,
            nodes,
            hash: PhantomData,
        })
    }
}
