// Why the dealer does not answer: exactly the cases that her calls give, so that nobody has to
// match on others.
ghost use Rattle.std.specs.Prelude.{◌≡◌};
ghost use Rattle.dealer.specs.Refusals.{number_of, handed_on, of_tree};

/// Why the dealer does not answer; each case by its public number.
#[derive(Clone, Copy, PartialEq, Eq, Debug)]
pub enum Refusal {
    /// There are not as many sources as trustees.
    Sources = 8,
    /// Two sources hold key 0 and have the same check pad for it and a zero prefix.
    SameChecks = 6,
    /// No group owns the key.
    Undealt = 9,
    /// A buffer has not its exact length.
    Buffer = 20,
    /// The source of a member of the key's group does not hold the key.
    NotHeld = 7,
    /// The message has more than 65,536 bytes.
    Message = 12,
}

impl Refusal {
    /// The public number.
    pub fn number(&self) -> usize
        ensures { result ≡ number_of self.now }
    {
        *self as usize
    }
}

impl From<splitting::Refusal> for Refusal {
    ghost from_gives = { λ x y. y ≡ handed_on x };

    fn from(refusal: splitting::Refusal) -> Refusal {
        match refusal {
            splitting::Refusal::Sources => Refusal::Sources,
            splitting::Refusal::SameChecks => Refusal::SameChecks,
            splitting::Refusal::Undealt => Refusal::Undealt,
            splitting::Refusal::Buffer => Refusal::Buffer,
            splitting::Refusal::NotHeld => Refusal::NotHeld,
        }
    }
}

impl From<lms::Refusal> for Refusal {
    ghost from_gives = { λ x y. y ≡ of_tree x };

    fn from(refusal: lms::Refusal) -> Refusal {
        match refusal {
            lms::Refusal::Key => Refusal::Undealt,
            lms::Refusal::Buffer => Refusal::Buffer,
            lms::Refusal::Message => Refusal::Message,
        }
    }
}
