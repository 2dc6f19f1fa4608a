// What is read of a grown tree: its root and the paths of its leaves.
ghost use Rattle.std.specs.Prelude.{◌≡◌, ◌^◌, ◌<◌, length, MatchOption, MatchResult};
ghost use Rattle.std.specs.Result.{result_err};
ghost use Rattle.checks.specs.Checks.{first_refusal};
ghost use Rattle.rows.specs.Bytes.{rows};
ghost use Rattle.lms.specs.Grown.{grown_path, grown_root, tall};
ghost use Rattle.lms.specs.Refusals.{path_checks};

use crate::codes::{ots_code, tree_code};
use crate::kept::Tree;
use crate::refusal::Refusal;
use hash::Hash;
use rows::{Row, put};

/// How many bytes a root has.
pub const ROOT_LENGTH: usize = 56;

impl<H: Hash> Tree<H> {
    /// The root: its two codes, the identifier and node 1 (RFC 8554, 5.3).
    pub fn root(&self) -> [u8; ROOT_LENGTH]
        ensures { result ≡ grown_root H.hashed H.ots H.tree self.now }
    {
        let mut root = [0; ROOT_LENGTH];
        put(&mut root, 0, &tree_code::<H>(self.height).to_be_bytes());
        put(&mut root, 4, &ots_code::<H>(self.width).to_be_bytes());
        put(&mut root, 8, &self.origin.id.bytes());
        put(&mut root, 24, &self.nodes[1]);
        root
    }

    /// The row of a leaf's path at one level, both from 0; none where the tree has no such leaf or
    /// level.
    pub fn path_row(&self, key: u32, level: usize) -> Option<Row>
        ensures { MatchOption result
            ((key < 2 ^ tall self.now) × (level < tall self.now) → ⊥)
            (λ x. (key < 2 ^ tall self.now) × (level < tall self.now)
            × (x ≡ grown_path H.hashed self.now key level)) }
    {
        let leaf = self.leaf(key)?;
        if level >= self.height.levels() {
            return None;
        }
        Some(leaf.sibling(level))
    }

    /// Writes the rows of a leaf's path, from the lowest up, over all of a buffer.
    pub fn write_path(&self, key: u32, out: &mut [u8]) -> Result<(), Refusal>
        ensures answer { result_err result
            ≡ first_refusal (path_checks self.now key (length out.old)) }
        ensures written { MatchResult result
            (λ _. out.new ≡ rows (tall self.now) (grown_path H.hashed self.now key))
            (λ _. out.new ≡ out.old) }
    {
        let leaf = self.leaf(key).ok_or(Refusal::Key)?;
        if out.len() != 32 * self.height.levels() {
            return Err(Refusal::Buffer);
        }
        leaf.write_siblings(out);
        Ok(())
    }
}
