// Refusals: an enum of this crate's own, with exactly the cases that its calls can give.
ghost use Rattle.std.specs.Prelude.{◌≡◌};
ghost use Rattle.tape.specs.Refusals.{number_of};

/// Why bytes are no tape.
#[derive(Clone, Copy, PartialEq, Eq, Debug)]
pub enum Refusal {
    /// The bytes are not whole lines, or not used ones with distinct keys of the tree and then
    /// unused ones.
    Damaged = 21,
}

impl Refusal {
    /// The public number: 21.
    pub fn number(&self) -> usize
        ensures { result ≡ number_of self.now }
    {
        *self as usize
    }
}
