// The plan type, which keeps every rule of a plan.
ghost use Rattle.std.specs.Prelude.{◌≡◌, ◌^◌, ◌≤◌, true, length};
ghost use Rattle.sizes.specs.Sizes.{levels};
ghost use Rattle.plan.specs.Shape.{is_trustees, is_groups, Within, Rising};

use sizes::{Height, Width};

/// A plan: its trustees, the height and width of its one-time keys, and its groups. Every value
/// keeps all rules of a plan, so that looking up a key, a group or a member asks nothing of the
/// caller.
#[derive(Clone, Copy)]
pub struct Plan {
    pub(crate) trustees: u8,
    pub(crate) height: Height,
    pub(crate) width: Width,
    pub(crate) groups: usize,
    // The masks of the groups stand in front: an array with a number, since a plan is copied and
    // has no heap.
    pub(crate) masks: [u8; 70],
    ghost trustees_in: { is_trustees trustees ≡ true },
    ghost groups_in: { is_groups groups ≡ true },
    ghost keys_for_all: { groups ≤ 2 ^ levels height },
    ghost room: { groups ≤ length masks },
    ghost within: { Within (2 ^ trustees) groups masks },
    ghost rising: { Rising groups masks },
}
