// Why a key is not split: an enum of this crate's own, with exactly the cases that its calls give.
ghost use Rattle.std.specs.Prelude.{◌≡◌};
ghost use Rattle.splitting.specs.Refusals.{number_of};

/// Why a key is not split; each case by its public number.
#[derive(Clone, Copy, PartialEq, Eq, Debug)]
pub enum Refusal {
    /// There are not as many sources as trustees.
    Sources = 8,
    /// Two sources hold key 0 and have the same check pad for it and a zero prefix.
    SameChecks = 6,
    /// No group owns the key.
    Undealt = 9,
    /// A buffer has not its exact length.
    Buffer = 20,
    /// The source of a member of the key's group does not hold the key.
    NotHeld = 7,
}

impl Refusal {
    /// The public number.
    pub fn number(&self) -> usize
        ensures { result ≡ number_of self.now }
    {
        *self as usize
    }
}
