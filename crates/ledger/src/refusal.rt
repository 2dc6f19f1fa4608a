// Refusals: an enum of this crate's own, with exactly the cases that its calls can give.
ghost use Rattle.std.specs.Prelude.{◌≡◌};
ghost use Rattle.ledger.specs.Refusals.{number_of};

/// Why a key is not spent.
#[derive(Clone, Copy, PartialEq, Eq, Debug)]
pub enum Refusal {
    /// The key is spent already, or is no key of the tree.
    Spent = 11,
    /// The ledger has no room for another key.
    NoRoom = 15,
}

impl Refusal {
    /// The public number: 11 or 15.
    pub fn number(&self) -> usize
        ensures { result ≡ number_of self.now }
    {
        *self as usize
    }
}
