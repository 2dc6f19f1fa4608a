// Free keys of a ledger.
ghost use Rattle.std.specs.Prelude.{◌≡◌, false};
ghost use Rattle.ledger.specs.Lowest.{Lowest};

use crate::interface::Ledger;

/// The smallest free key from `first` on, below `end`; none where there is none.
pub fn next_free<L: Ledger>(ledger: &L, first: u32, end: u32) -> Option<u32>
    ensures { Lowest (λ k. (L.standing ledger.now).spent k ≡ false) first end result }
{
    (first..end).find(|key| !ledger.spent(*key))
}
