// A leaf of a tree: its path, and what it signs.
ghost use Rattle.std.specs.Prelude.{◌≡◌, ◌*◌, ◌^◌, ◌<◌, ◌≤◌, length, MatchOption};
ghost use Rattle.rows.specs.Bytes.{rows};
ghost use Rattle.lms.specs.Grown.{grown_path, grown_signature, tall, wide};
ghost use Rattle.lms.specs.Lms.{signature_length};

use crate::codes::tree_code;
use crate::kept::Tree;
use crate::signing::write_head;
use hash::Hash;
use lmots::{chain_count, digest_of, prefix_of, write_selected};
use rows::{Row, put, put_row};

// A key that the tree has.
#[derive(Drop)]
pub(crate) struct Leaf<'a, H: Hash> {
    tree: &'a Tree<H>,
    key: u32,
    ghost there: { key < 2 ^ tall tree.now },
}

impl<H: Hash> Tree<H> {
    // The leaf of a key, where the tree has it.
    pub(crate) fn leaf(&self, key: u32) -> Option<Leaf<'_, H>>
        ensures { MatchOption result (2 ^ tall self.now ≤ key)
            (λ l. (l.tree.now ≡ self.now) × (l.key ≡ key)) }
    {
        // Not by `then_some`: the leaf is made behind the test, since its type says that the tree
        // has the key.
        if key < self.height.keys() {
            Some(Leaf { tree: self, key })
        } else {
            None
        }
    }
}

impl<H: Hash> Leaf<'_, H> {
    // The row of the path at one level.
    pub(crate) fn sibling(&self, level: usize) -> Row
        requires { level < tall self.now.tree.now }
        ensures { result ≡ grown_path H.hashed self.now.tree.now self.now.key level }
    {
        let tree = self.tree;
        let r = (tree.height.keys() + self.key) as usize;
        tree.nodes[(r >> level) ^ 1]
    }

    // All rows of the path.
    pub(crate) fn write_siblings(&self, out: &mut [u8])
        requires { length out.old ≡ 32 * tall self.now.tree.now }
        ensures { out.new ≡
            rows (tall self.now.tree.now) (grown_path H.hashed self.now.tree.now self.now.key) }
    {
        let tree = self.tree;
        // By number, since a proof does not know what a slice holds after `chunks_exact_mut`.
        for k in 0..tree.height.levels() {
            put_row(out, k, &self.sibling(k));
        }
    }

    // The signature of a message.
    pub(crate) fn write_signature(&self, message: &[u8], out: &mut [u8])
        requires { length out.old
            ≡ signature_length (tall self.now.tree.now) (wide self.now.tree.now) }
        ensures laid { out.new
            ≡ grown_signature H.hashed H.ots H.tree self.now.tree.now self.now.key message.now }
        ensures named { length self.now.tree.now.origin.id.bytes ≡ 16 }
    {
        let tree = self.tree;
        let prefix = prefix_of::<H>(tree.origin, self.key);
        let digest = digest_of::<H>(tree.origin.id, self.key, &prefix, message);
        let end = 40 + 32 * chain_count(tree.width);
        write_head::<H>(tree.width, self.key, &prefix, out);
        let rows = &mut out[40..end];
        write_selected::<H>(tree.origin, tree.width, self.key, &digest, rows).unwrap();
        put(out, end, &tree_code::<H>(tree.height).to_be_bytes());
        self.write_siblings(&mut out[end + 4..]);
    }
}
