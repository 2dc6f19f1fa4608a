// Why a row is not given: an enum of this crate's own, with exactly the cases that its calls give.
ghost use Rattle.std.specs.Prelude.{◌≡◌};
ghost use Rattle.helper.specs.Refusals.{number_of};

/// Why a row is not given; each case by its public number.
#[derive(Clone, Copy, PartialEq, Eq, Debug)]
pub enum Refusal {
    /// The helper holds no row of that key at that index.
    Beyond = 19,
}

impl Refusal {
    /// The public number.
    pub fn number(&self) -> usize
        ensures { result ≡ number_of self.now }
    {
        *self as usize
    }
}
