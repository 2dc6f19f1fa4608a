// The width of a digit in bits. A type beside that of heights: numbers and error text are all that
// either is.
ghost use Rattle.std.specs.Prelude.{◌≡◌, true, false, MatchResult, Some, codes};
ghost use Rattle.sizes.specs.Sizes.{bits, is_width};

use std::error::Error;
use std::fmt;

/// How many bits a digit of a one-time signature has, RFC 8554's w (section 4.1): 1, 2, 4 or 8.
#[derive(Clone, Copy, PartialEq, Eq, Debug)]
pub enum Width {
    One = 1,
    Two = 2,
    Four = 4,
    Eight = 8,
}

/// A number that is no width.
#[derive(Clone, Copy, PartialEq, Eq, Debug)]
pub struct UnknownWidth(pub u32);

/// The width of some bits, where there is one.
impl TryFrom<u32> for Width {
    type Error = UnknownWidth;

    ghost try_from_gives = { λ number r. MatchResult r
        (λ w. (is_width number ≡ true) × (bits w ≡ number))
        (λ e. (is_width number ≡ false) × (e.0 ≡ number)) };

    fn try_from(number: u32) -> Result<Width, UnknownWidth> {
        match number {
            1 => Ok(Width::One),
            2 => Ok(Width::Two),
            4 => Ok(Width::Four),
            8 => Ok(Width::Eight),
            _ => Err(UnknownWidth(number)),
        }
    }
}

impl fmt::Display for UnknownWidth {
    ghost output = { λ e. Some (codes "the width is 1, 2, 4 or 8") };

    fn fmt<W: fmt::Write>(&self, f: &mut fmt::Formatter<W>) -> fmt::Result {
        f.write_str("the width is 1, 2, 4 or 8")
    }
}

impl Error for UnknownWidth {}

impl Width {
    /// Its bits.
    pub fn bits(self) -> usize
        ensures { result ≡ bits self }
    {
        self as usize
    }
}
