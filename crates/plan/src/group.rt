// A group of a plan: its members, and the range of keys that it owns.
ghost use Rattle.std.specs.Prelude.{◌≡◌, ◌<◌, ◌≤◌, length, MatchOption, slice_index};
ghost use Rattle.plan.specs.Members.{members, has, place};
ghost use Rattle.plan.specs.Groups.{owns_key, IsOfPlan};
ghost use Rattle.plan.specs.Laws.{Seats};

use crate::members::Members;

/// A group as a value: its number from 0, its members as a mask whose bit t - 1 stands for trustee
/// t, and its keys, which run from `first` on and are `count` many.
#[derive(Clone, Copy, PartialEq, Eq, Debug)]
pub struct Group {
    pub number: usize,
    pub mask: u8,
    pub first: u32,
    pub count: u32,
}

impl Group {
    /// Whether the group owns a key.
    pub fn owns(&self, key: u32) -> bool
        ensures { result ≡ owns_key self.now key }
    {
        self.first <= key && key - self.first < self.count
    }

    /// How many members the group has: 1 to 8 where it is a plan's.
    pub fn size(&self) -> usize
        ensures value { result ≡ length (members self.now.mask) }
        ensures eight { result ≤ 8 }
        ensures some { IsOfPlan self.now → 1 ≤ result }
    {
        self.mask.count_ones() as usize
    }

    /// Whether a trustee is a member; trustees are numbered from 1.
    pub fn has(&self, trustee: u8) -> bool
        ensures { result ≡ has self.now.mask trustee }
    {
        (1..=8).contains(&trustee) && (self.mask >> (trustee - 1)) & 1 == 1
    }

    /// A member's place among the members, by rising trustee number, from 0. Members rise with
    /// their places, each has one, and who has one is whom the mask has.
    pub fn position(&self, trustee: u8) -> Option<usize>
        ensures value { result ≡ place trustee (members self.now.mask) }
        ensures seats { Seats self.now.mask }
    {
        let mask = self.mask;
        if !self.has(trustee) {
            return None;
        }
        let lower = mask & ((1u8 << (trustee - 1)) - 1);
        Some(lower.count_ones() as usize)
    }

    /// The members, by rising trustee number.
    pub fn members(&self) -> Members
        ensures { result ≡ members self.now.mask }
    {
        Members { left: self.mask }
    }

    /// The member at a place, from 0, where the group has so many.
    pub fn member(&self, position: usize) -> Option<u8>
        ensures { let all = members self.now.mask in MatchOption result
            (length all ≤ position)
            (λ t. (position < length all) × (t ≡ slice_index all position) × (1 ≤ t) × (t ≤ 8)) }
    {
        self.members().nth(position)
    }
}
