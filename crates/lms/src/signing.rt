// Signatures: laid out from given rows, and signed from a grown tree.
ghost use Rattle.std.specs.Prelude.{◌≡◌, ◌≤◌, true, ◌++◌, length, take, MatchResult, OnOk};
ghost use Rattle.std.specs.Result.{result_err};
ghost use Rattle.checks.specs.Checks.{first_refusal};
ghost use Rattle.rows.specs.Bytes.{u32str};
ghost use Rattle.sizes.specs.Sizes.{bits, levels};
ghost use Rattle.lms.specs.Grown.{grown_root, grown_signature};
ghost use Rattle.lms.specs.Lms.{accepts, layout, ots_code, signature_length};
ghost use Rattle.lms.specs.Refusals.{assembly_checks, signing_checks};

use crate::codes::{ots_code, tree_code};
use crate::kept::Tree;
use crate::refusal::Refusal;
use crate::verifier::LONGEST;
use hash::Hash;
use lmots::chain_count;
use rows::{Row, put};
use sizes::{Height, Width};

/// How many bytes a signature has (RFC 8554, 5.4).
pub fn signature_length(height: Height, width: Width) -> usize
    ensures value { result ≡ signature_length (levels height) (bits width) }
    ensures few { result ≤ 8844 }
{
    44 + 32 * chain_count(width) + 32 * height.levels()
}

// The first 40 bytes of a signature.
pub(crate) fn write_head<H: Hash>(width: Width, key: u32, prefix: &Row, out: &mut [u8])
    requires { 40 ≤ length out.old }
    ensures { take 40 out.new ≡ u32str key ++ u32str (ots_code H.ots (bits width)) ++ prefix.now }
{
    put(out, 0, &key.to_be_bytes());
    put(out, 4, &ots_code::<H>(width).to_be_bytes());
    put(out, 8, prefix);
}

/// Writes the signature that a key's number, a prefix, one row of each chain and a path make up,
/// over all of a buffer (RFC 8554, 5.4).
pub fn assemble<H: Hash>(
    height: Height,
    width: Width,
    key: u32,
    prefix: &Row,
    components: &[u8],
    path: &[u8],
    out: &mut [u8],
) -> Result<(), Refusal>
    ensures answer { result_err result
        ≡ first_refusal (assembly_checks (levels height) (bits width) key
        (length components.now) (length path.now) (length out.old)) }
    ensures written { MatchResult result
        (λ _. out.new ≡ layout H.ots H.tree (levels height) (bits width)
        key prefix.now components.now path.now)
        (λ _. out.new ≡ out.old) }
{
    if key >= height.keys() {
        return Err(Refusal::Key);
    }
    let end = 40 + 32 * chain_count(width);
    if components.len() != end - 40
        || path.len() != 32 * height.levels()
        || out.len() != signature_length(height, width)
    {
        return Err(Refusal::Buffer);
    }
    write_head::<H>(width, key, prefix, out);
    put(out, 40, components);
    put(out, end, &tree_code::<H>(height).to_be_bytes());
    put(out, end + 4, path);
    Ok(())
}

impl<H: Hash> Tree<H> {
    /// Writes the signature of a message by one key over all of a buffer (RFC 8554, 5.4.1). That a
    /// key signs one message only is for the caller to see to.
    pub fn sign(&self, key: u32, message: &[u8], out: &mut [u8]) -> Result<(), Refusal>
        ensures answer { result_err result
            ≡ first_refusal (signing_checks self.now key (length message.now) (length out.old)) }
        ensures written { MatchResult result
            (λ _. out.new ≡ grown_signature H.hashed H.ots H.tree self.now key message.now)
            (λ _. out.new ≡ out.old) }
        ensures accepted { OnOk result (accepts H.hashed H.ots H.tree
            (grown_root H.hashed H.ots H.tree self.now) message.now out.new ≡ true) }
    {
        let leaf = self.leaf(key).ok_or(Refusal::Key)?;
        if out.len() != signature_length(self.height, self.width) {
            return Err(Refusal::Buffer);
        }
        if message.len() > LONGEST {
            return Err(Refusal::Message);
        }
        leaf.write_signature(message, out);
        Ok(())
    }
}
