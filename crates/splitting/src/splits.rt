// A key sheet, split.
ghost use Rattle.std.specs.Prelude.{◌≡◌, map, length, Ok, MatchResult};
ghost use Rattle.std.specs.Result.{result_err};
ghost use Rattle.plan.specs.View.{view};
ghost use Rattle.splitting.specs.Split.{refusal, split};
ghost use Rattle.splitting.specs.Laws.{Splitting};

use crate::checking::check;
use crate::key_part::KeyPart;
use crate::masking::add_all;
use crate::refusal::Refusal;
use pads::Pads;
use plan::Plan;

/// Adds to each row of a key the pads of all members of the group that owns the key, at the row's
/// label, bit by bit without carry. Any rows of 32 bytes can be split, and splitting twice gives
/// them back.
///
/// Refuses what `check` refuses of these sources, this key and the rows' length in bytes.
pub fn split<P: Pads>(plan: &Plan, sources: &[P], key: u32, rows: &mut [u8]) -> Result<(), Refusal>
    ensures answer { result_err result ≡
        refusal (view plan.now) (map P.source sources.now) key (length rows.old) }
    ensures written { MatchResult result
        (λ _. split (view plan.now) (map P.source sources.now) key rows.old ≡ Ok rows.new)
        (λ _. rows.new ≡ rows.old) }
    ensures laws { Splitting }
{
    let group = check(plan, sources, key, rows.len())?;
    add_all(sources, &group, KeyPart::of(plan, &group, key), rows);
    Ok(())
}
