// What a plan says of its groups and keys.
ghost use Rattle.std.specs.Prelude.{◌≡◌, ◌<◌};
ghost use Rattle.plan.specs.Keys.{undealt};
ghost use Rattle.plan.specs.Groups.{group_at, group_of, groups, owning};
ghost use Rattle.plan.specs.Laws.{Ranges, Membership, TenGroups};
ghost use Rattle.plan.specs.Shape.{Valid};
ghost use Rattle.plan.specs.View.{view};

use crate::group::Group;
use crate::groups::Groups;
use crate::plans::Plan;

impl Plan {
    /// A group by its number, from 0, where the plan has it.
    pub fn group(&self, number: usize) -> Option<Group>
        ensures { result ≡ group_at (view self.now) number }
    {
        if number >= self.groups {
            return None;
        }
        Some(self.described(number))
    }

    /// All groups, by rising number.
    pub fn iter(&self) -> Groups<'_>
        ensures { result ≡ groups (view self.now) }
    {
        Groups {
            plan: self,
            number: 0,
        }
    }

    /// The group that owns a key, or none for a key that is never dealt. Every plan keeps the
    /// rules. Its groups' key ranges are disjoint, rising and of equal size, and with the keys
    /// never dealt they are all keys; the owner is the group whose range has the key. Every group's
    /// members are some of the plan's trustees.
    pub fn owner(&self, key: u32) -> Option<Group>
        ensures value { result ≡ owning (view self.now) key }
        ensures rules { Valid (view self.now) }
        ensures ranges { Ranges (view self.now) }
        ensures members { Membership (view self.now) }
        ensures example { TenGroups }
    {
        self.iter().find(|group| group.owns(key))
    }

    /// How many keys of the tree are never dealt: those behind the last group's.
    pub fn undealt(&self) -> u32
        ensures { result ≡ undealt (view self.now) }
    {
        self.height.keys() - self.first_key(self.groups)
    }

    fn described(&self, number: usize) -> Group
        requires { number < self.now.groups }
        ensures { result ≡ group_of (view self.now) number }
    {
        let (first, count) = self.keys_of(number);
        Group {
            number,
            mask: self.masks[number],
            first,
            count,
        }
    }
}
