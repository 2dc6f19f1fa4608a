// Plans are made of parts that keep the rules, and of no others.
ghost use Rattle.std.specs.Prelude.{◌≡◌, length, Decides, MatchOption};
ghost use Rattle.plan.specs.Shape.{Valid, Within, Rising};
ghost use Rattle.plan.specs.View.{view, shaped};

use crate::plans::Plan;
use sizes::{Height, Width};

impl Plan {
    /// The plan with these parts, where they keep the rules: 1 to 8 trustees, 1 to 70 groups and no
    /// more than keys, and masks that are at least 1, name only trustees of the plan, and rise
    /// strictly. Bit t - 1 of a group's mask stands for trustee t.
    pub fn new(trustees: u8, height: Height, width: Width, masks: &[u8]) -> Option<Plan>
        ensures { let parts = shaped trustees height width masks.now in MatchOption result
            (Valid parts → ⊥)
            (λ p. Valid parts × (view p ≡ parts)) }
    {
        let groups = masks.len();
        if !(1..=8).contains(&trustees) || !(1..=70).contains(&groups) {
            return None;
        }
        if groups > height.keys() as usize || !within(masks, 1 << trustees) || !rising(masks) {
            return None;
        }
        let mut all = [0u8; 70];
        all[0..groups].copy_from_slice(masks);
        Some(Plan {
            trustees,
            height,
            width,
            groups,
            masks: all,
        })
    }
}

// Whether masks are at least 1 and below a limit.
fn within(masks: &[u8], limit: u16) -> bool
    ensures { Decides result (Within limit (length masks.now) masks.now) }
{
    masks
        .iter()
        .all(|mask| 1 <= *mask && (*mask as u16) < limit)
}

// Whether masks rise strictly.
fn rising(masks: &[u8]) -> bool
    ensures { Decides result (Rising (length masks.now) masks.now) }
{
    masks.is_sorted_by(|a, b| a < b)
}
