// Which keys each group owns. All that a plan answers about ownership comes from the two functions
// here.
ghost use Rattle.std.specs.Prelude.{◌≡◌, ◌*◌, ◌/◌, ◌^◌, ◌<◌, ◌≤◌};
ghost use Rattle.sizes.specs.Sizes.{levels};
ghost use Rattle.plan.specs.Keys.{first_key, key_count};
ghost use Rattle.plan.specs.View.{view};

use crate::plans::Plan;

impl Plan {
    // The first key of a group; behind the last group, the first key that is never dealt.
    pub(crate) fn first_key(&self, number: usize) -> u32
        requires { number ≤ self.now.groups }
        ensures value { result ≡ first_key (view self.now) number }
        ensures within { result ≤ 2 ^ levels self.now.height }
    {
        self.share() * number as u32
    }

    // The first key of a group, and how many keys it owns, by one division.
    pub(crate) fn keys_of(&self, number: usize) -> (u32, u32)
        requires { number < self.now.groups }
        ensures first { result.0 ≡ first_key (view self.now) number }
        ensures count { result.1 ≡ key_count (view self.now) number }
    {
        let share = self.share();
        (share * number as u32, share)
    }

    // How many keys each group owns: as many as go round.
    fn share(&self) -> u32
        ensures value { result ≡ 2 ^ levels self.now.height / self.now.groups }
        ensures dealt { result * self.now.groups ≤ 2 ^ levels self.now.height }
    {
        self.height.keys() / self.groups as u32
    }
}
