//! What a ring needs of a one-time scheme and its tree, and all that it may use of them.
//! For this some functions of `lmots` stand here again, under names of the scheme.
ghost use Rattle.std.specs.Prelude.{◌≡◌, ℕ, ◌<◌, ◌≤◌, length, MatchResult, slice_index};
ghost use Rattle.std.specs.Result.{result_err};
ghost use Rattle.checks.specs.Checks.{first_refusal};
ghost use Rattle.sizes.specs.Sizes.{bits, levels};
ghost use Rattle.lms.specs.Refusals.{component_checks};
ghost use Rattle.lms.specs.Scheme as spec;

pub use crate::kept::Tree;
pub use crate::reading::ROOT_LENGTH;
use crate::refusal::Refusal;
pub use crate::signing::{assemble, signature_length};
pub use crate::verifier::LONGEST;
use crate::verifier::verify;
use hash::Hash;
use lmots::{chain_count, digest_of, position_count, prefix_of, write_positions};
use rows::{Identifier, Origin, Row};
use sizes::{Height, Width};

/// Carries what holds of the scheme over this hash; it does nothing when it runs.
pub fn laws_hold<H: Hash>()
    ensures { spec.Holds H.hashed H.ots H.tree }
{}

/// How many components a key has.
pub fn components(width: Width) -> usize
    ensures value { result ≡ spec.components (bits width) }
    ensures few { result ≤ 265 }
{
    chain_count(width)
}

/// How many positions a component has.
pub fn positions(width: Width) -> usize
    ensures value { result ≡ spec.positions (bits width) }
    ensures few { result ≤ 256 }
{
    position_count(width)
}

/// A key's prefix.
pub fn prefix<H: Hash>(origin: Origin, key: u32) -> Row
    ensures { result ≡ spec.prefix H.hashed origin.id.bytes origin.seed.bytes key }
{
    prefix_of::<H>(origin, key)
}

/// The digest of identifier, key, prefix and message.
pub fn digest<H: Hash>(id: Identifier, key: u32, prefix: &Row, message: &[u8]) -> Row
    ensures value { result ≡ spec.digest H.hashed id.bytes key prefix.now message.now }
    ensures named { length id.bytes ≡ 16 }
{
    digest_of::<H>(id, key, prefix, message)
}

/// The position that a digest selects in component i, from 0. Who needs more than one asks
/// `selection`.
pub fn position(width: Width, digest: &Row, i: usize) -> u8
    ensures { result ≡ spec.position (bits width) digest.now i }
{
    lmots::position(width, digest, i)
}

/// The positions that a digest selects, component by component, with its checksum computed once.
/// There is room for the 265 components of the longest key; what stands behind a key's last
/// component selects none.
pub fn selection(width: Width, digest: &Row) -> [u8; 265]
    ensures value { (i : ℕ) → i < 265 →
        slice_index result i ≡ spec.position (bits width) digest.now i }
    ensures inside { (i : ℕ) → slice_index result i < spec.positions (bits width) }
{
    lmots::selection(width, digest)
}

/// Writes a key's row at every position of every component, component by component, over all of a
/// buffer.
pub fn write_components<H: Hash>(
    height: Height,
    width: Width,
    origin: Origin,
    key: u32,
    out: &mut [u8],
) -> Result<(), Refusal>
    ensures answer { result_err result
        ≡ first_refusal (component_checks (levels height) (bits width) key (length out.old)) }
    ensures written { MatchResult result
        (λ _. out.new
        ≡ spec.all_components H.hashed origin.id.bytes origin.seed.bytes (bits width) key)
        (λ _. out.new ≡ out.old) }
{
    if key >= height.keys() {
        return Err(Refusal::Key);
    }
    write_positions::<H>(origin, width, key, out)?;
    Ok(())
}

/// The verdict on a signature of a message, whatever the lengths of the three.
pub fn verdict<H: Hash>(root: &[u8], message: &[u8], sig: &[u8]) -> bool
    ensures { result ≡ spec.verdict H.hashed H.ots H.tree root.now message.now sig.now }
{
    verify::<H>(root, message, sig)
}
