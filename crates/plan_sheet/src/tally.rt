// The members of a group, counted entry by entry.
ghost use Rattle.std.specs.Prelude.{◌≡◌, ℕ, ◌+◌, ◌^◌, ◌<◌, ◌≤◌, true, false, ◌&&◌, List, ◌∷◌, is_some, Some, MatchOption, nat_lt};
ghost use Rattle.std.specs.Option.{unwrap_or};
ghost use Rattle.plan_sheet.specs.Entries.{above, orderly, bit};

// The next member is to be above `floor`; behind a blank there is no floor, and no member may
// follow. There is a mask as long as the members rise and none stands behind a blank.
#[derive(Clone, Copy)]
pub(crate) struct Tally {
    floor: Option<u8>,
    mask: Option<u8>,
    ghost floor_in: { unwrap_or floor 8 ≤ 8 },
    ghost small: { unwrap_or mask 0 < 2 ^ unwrap_or floor 8 },
}

impl Tally {
    pub(crate) fn new() -> Tally
        ensures { (result.floor ≡ Some 0) × (result.mask ≡ Some 0) }
    {
        Tally {
            floor: Some(0),
            mask: Some(0),
        }
    }

    pub(crate) fn with(self, entry: Option<u8>) -> Tally
        requires { (unwrap_or entry 0 ≤ 8) × (is_some entry ≡ nat_lt 0 (unwrap_or entry 0)) }
        ensures order { (ts : List ℕ) →
            (is_some self.mask && orderly self.floor (unwrap_or entry 0 ∷ ts))
            ≡ (is_some result.mask && orderly result.floor ts) }
        ensures mask { is_some result.mask ≡ true → (is_some self.mask ≡ true)
            × (unwrap_or result.mask 0 ≡ unwrap_or self.mask 0 + bit (unwrap_or entry 0)) }
        ensures below { (n : ℕ) → unwrap_or self.mask 0 < 2 ^ n → unwrap_or entry 0 ≤ n →
            unwrap_or result.mask 0 < 2 ^ n }
    {
        let Some(trustee) = entry else {
            return Tally {
                floor: None,
                mask: self.mask,
            };
        };
        if !self.admits(trustee) {
            return Tally {
                floor: self.floor,
                mask: None,
            };
        }
        Tally {
            floor: Some(trustee),
            mask: self.mask.map(|mask| mask + (1 << (trustee - 1))),
        }
    }

    // Whether a trustee may be the next member.
    fn admits(&self, trustee: u8) -> bool
        ensures { result ≡ above self.now.floor trustee }
    {
        self.floor.is_some_and(|floor| floor < trustee)
    }

    // The mask, if the members rise and it is above another.
    pub(crate) fn above(self, other: u8) -> Option<u8>
        ensures { MatchOption result
            ((is_some self.mask && nat_lt other (unwrap_or self.mask 0)) ≡ false)
            (λ m. ((is_some self.mask && nat_lt other (unwrap_or self.mask 0)) ≡ true)
            × (m ≡ unwrap_or self.mask 0)) }
    {
        self.mask.filter(|mask| other < *mask)
    }
}
