// The nodes of a tree, each hashed from what stands below it.
ghost use Rattle.std.specs.Prelude.{◌≡◌, [], length, slice_index_or};
ghost use Rattle.lms.specs.Lms.{climbed, inner_node, leaf_node};

use hash::Hash;
use lmots::opened;
use rows::{Identifier, Row};

// The marks in front of a leaf's key, and of the two nodes below a node.
const D_LEAF: u16 = 0x8282;

const D_INTR: u16 = 0x8383;

// The node of a leaf, from its one-time public key.
pub(crate) fn leaf<H: Hash>(id: Identifier, r: u32, key: &Row) -> Row
    ensures { result ≡ leaf_node H.hashed id.bytes r key.now }
{
    let mut h = opened::<H>(id, r, D_LEAF);
    h.feed(key);
    h.close()
}

// A node from the two below it.
pub(crate) fn inner<H: Hash>(id: Identifier, r: u32, left: &Row, right: &Row) -> Row
    ensures { result ≡ inner_node H.hashed id.bytes r left.now right.now }
{
    let mut h = opened::<H>(id, r, D_INTR);
    h.feed(left);
    h.feed(right);
    h.close()
}

// The node above the node r to which the rows of a path lead, from the lowest up.
pub(crate) fn climb<H: Hash>(id: Identifier, r: u32, bottom: &Row, path: &[Row]) -> Row
    ensures { result ≡ climbed H.hashed id.bytes (λ k. slice_index_or path.now k [])
        r bottom.now (length path.now) }
{
    let mut x = *bottom;
    let mut number = r;
    for next in path {
        x = if number % 2 == 1 {
            inner::<H>(id, number / 2, next, &x)
        } else {
            inner::<H>(id, number / 2, &x, next)
        };
        number /= 2;
    }
    x
}
