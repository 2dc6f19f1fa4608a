// The rows of a one-time signature.
ghost use Rattle.std.specs.Prelude.{◌≡◌, length, MatchResult};
ghost use Rattle.std.specs.Result.{result_err};
ghost use Rattle.checks.specs.Checks.{first_refusal};
ghost use Rattle.rows.specs.Bytes.{rows};
ghost use Rattle.sizes.specs.Sizes.{bits};
ghost use Rattle.lmots.specs.LmOts.{X, digit, p};
ghost use Rattle.lmots.specs.Refusals.{chain_checks};

use crate::digits::{chain_count, selection};
use crate::lanes::Chain;
use crate::refusal::Refusal;
use crate::single::{chain_start, walk};
use hash::Hash;
use rows::{Origin, Row, put_row};
use sizes::Width;

/// Writes the row of each chain of key q at the position that a digest selects, over all of a
/// buffer; these are a signature's rows (RFC 8554, 4.5).
pub fn write_selected<H: Hash>(
    origin: Origin,
    width: Width,
    q: u32,
    digest: &Row,
    out: &mut [u8],
) -> Result<(), Refusal>
    ensures answer { result_err result
        ≡ first_refusal (chain_checks (bits width) (length out.old)) }
    ensures written { MatchResult result
        (λ _. out.new ≡ rows (p (bits width))
        (λ i. X H.hashed origin.id.bytes origin.seed.bytes q i (digit (bits width) digest.now i)))
        (λ _. out.new ≡ out.old) }
{
    let count = chain_count(width);
    if out.len() != 32 * count {
        return Err(Refusal::Buffer);
    }
    let positions = selection(width, digest);
    // By number, since a proof does not know what a slice holds after `chunks_exact_mut`.
    for i in 0..count {
        let chain = Chain { q, i: i as u16 };
        let x = chain_start::<H>(origin, chain);
        let y = walk::<H>(origin.id, chain, 0, positions[i], &x);
        put_row(out, i, &y);
    }
    Ok(())
}
