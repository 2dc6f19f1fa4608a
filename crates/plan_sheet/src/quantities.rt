// The four numbers of a heading, each with its range.
ghost use Rattle.std.specs.Prelude.{◌≡◌, ℕ, Bool, true, false, ◌&&◌, nat_le, MatchOption};
ghost use Rattle.sizes.specs.Sizes.{levels, bits, is_height, is_width};

use sizes::{Height, Width};

// What a number of the heading may be, and what it then is. `of` stands beside TryFrom, since a
// range has no type of its own elsewhere, and the trait's meaning is what the sheet allows.
pub(crate) trait Quantity: Sized {
    ghost allowed: { ℕ → Bool };

    ghost amount: { Self → ℕ };

    fn of(number: u32) -> Option<Self>
        ensures { MatchOption result
            (allowed number ≡ false)
            (λ q. (allowed number ≡ true) × (amount q ≡ number)) };
}

// A number from 1 to `MOST`.
#[derive(Clone, Copy)]
pub(crate) struct UpTo<const MOST: u32>(pub(crate) u32);

impl<const MOST: u32> Quantity for UpTo<MOST> {
    ghost allowed = { λ n. nat_le 1 n && nat_le n MOST };

    ghost amount = { λ q. q.0 };

    fn of(number: u32) -> Option<UpTo<MOST>> {
        (1..=MOST).contains(&number).then_some(UpTo(number))
    }
}

impl Quantity for Height {
    ghost allowed = { is_height };

    ghost amount = { levels };

    fn of(number: u32) -> Option<Height> {
        Height::try_from(number).ok()
    }
}

impl Quantity for Width {
    ghost allowed = { is_width };

    ghost amount = { bits };

    fn of(number: u32) -> Option<Width> {
        Width::try_from(number).ok()
    }
}
