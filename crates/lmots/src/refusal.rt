// What a call of this crate can refuse.
ghost use Rattle.std.specs.Prelude.{◌≡◌};
ghost use Rattle.lmots.specs.Refusals.{number_of};

/// Why a call is refused, with the public number of each case.
#[derive(Clone, Copy, PartialEq, Eq, Debug)]
pub enum Refusal {
    /// A buffer has not its exact length.
    Buffer = 20,
}

impl Refusal {
    /// The public number.
    pub fn number(&self) -> usize
        ensures { result ≡ number_of self.now }
    {
        *self as usize
    }
}
