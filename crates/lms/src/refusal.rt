// What a call of this crate can refuse.
ghost use Rattle.std.specs.Prelude.{◌≡◌};
ghost use Rattle.lms.specs.Refusals.{number_of, of_one_time};

/// Why a call is refused, with the public number of each case.
#[derive(Clone, Copy, PartialEq, Eq, Debug)]
pub enum Refusal {
    /// The tree has no such key.
    Key = 9,
    /// A buffer has not its exact length.
    Buffer = 20,
    /// The message has more than 65,536 bytes.
    Message = 12,
}

impl Refusal {
    /// The public number.
    pub fn number(&self) -> usize
        ensures { result ≡ number_of self.now }
    {
        *self as usize
    }
}

impl From<lmots::Refusal> for Refusal {
    ghost from_gives = { λ x y. y ≡ of_one_time x };

    fn from(refusal: lmots::Refusal) -> Refusal {
        match refusal {
            lmots::Refusal::Buffer => Refusal::Buffer,
        }
    }
}
