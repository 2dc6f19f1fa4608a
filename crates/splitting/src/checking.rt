// What is checked before anything is written.
ghost use Rattle.std.specs.Prelude.{◌≡◌, map, Some, IfOk};
ghost use Rattle.std.specs.Result.{result_err};
ghost use Rattle.plan.specs.Groups.{owning};
ghost use Rattle.plan.specs.View.{view};
ghost use Rattle.splitting.specs.Split.{refusal};

use crate::refusal::Refusal;
use crate::sources::{all_hold, distinct};
use layout::part_rows;
use pads::Pads;
use plan::{Group, Plan};

/// The group that owns a key, unless a check fails, in this order: as many sources as trustees (8),
/// no two with the same check pad (6), a dealt key (9), a length in bytes that is the key's part's
/// (20), and each member's source holds the key (7).
pub fn check<P: Pads>(plan: &Plan, sources: &[P], key: u32, length: usize) -> Result<Group, Refusal>
    ensures answer { result_err result
        ≡ refusal (view plan.now) (map P.source sources.now) key length }
    ensures group { IfOk result (λ group. owning (view plan.now) key ≡ Some group) }
{
    if sources.len() != plan.trustees() as usize {
        return Err(Refusal::Sources);
    }
    if !distinct(sources) {
        return Err(Refusal::SameChecks);
    }
    let group = plan.owner(key).ok_or(Refusal::Undealt)?;
    if length != 32 * part_rows(plan.height(), plan.width(), &group) {
        return Err(Refusal::Buffer);
    }
    if !all_hold(sources, &group, key) {
        return Err(Refusal::NotHeld);
    }
    Ok(group)
}
