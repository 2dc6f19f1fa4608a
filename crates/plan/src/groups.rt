// The groups of a plan, one by one.
ghost use Rattle.std.specs.Iterator.{YieldsFirst, item_count};

use crate::group::Group;
use crate::plans::Plan;
use std::marker::Model;

/// The groups of a plan by rising number. Seen as the list of those that are still to come.
#[derive(Drop)]
pub struct Groups<'a> {
    pub(crate) plan: &'a Plan,
    pub(crate) number: usize,
}

impl<'a> Model for Groups<'a> {
    ghost use Rattle.std.specs.Prelude.{List, drop};
    ghost use Rattle.plan.specs.declared.group.Group.{Group};
    ghost use Rattle.plan.specs.Groups.{groups};
    ghost use Rattle.plan.specs.View.{view as plan_view};

    ghost Value = { List Group };

    ghost view = { λ s. drop s.number (groups (plan_view s.plan.now)) };
}

impl<'a> Iterator for Groups<'a> {
    type Item = Group;

    ghost next_gives = { YieldsFirst (λ rest. rest) };

    ghost remaining = { item_count (λ rest. rest) };

    // It counts by hand, since the number is all that it is.
    fn next(&mut self) -> Option<Group> {
        let group = self.plan.group(self.number)?;
        self.number += 1;
        Some(group)
    }
}
