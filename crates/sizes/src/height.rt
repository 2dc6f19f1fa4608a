// The height of a tree.
ghost use Rattle.std.specs.Prelude.{◌≡◌, ◌^◌, true, false, MatchResult, Some, codes};
ghost use Rattle.sizes.specs.Sizes.{levels, is_height};

use std::error::Error;
use std::fmt;

/// How many levels of nodes stand above the leaves of a tree: 5 or 10 (RFC 8554, section 5.1).
#[derive(Clone, Copy, PartialEq, Eq, Debug)]
pub enum Height {
    /// 32 one-time keys.
    Five = 5,
    /// 1,024 one-time keys.
    Ten = 10,
}

/// A number that is no height.
#[derive(Clone, Copy, PartialEq, Eq, Debug)]
pub struct UnknownHeight(pub u32);

/// The height of some levels, where there is one.
impl TryFrom<u32> for Height {
    type Error = UnknownHeight;

    ghost try_from_gives = { λ number r. MatchResult r
        (λ h. (is_height number ≡ true) × (levels h ≡ number))
        (λ e. (is_height number ≡ false) × (e.0 ≡ number)) };

    fn try_from(number: u32) -> Result<Height, UnknownHeight> {
        match number {
            5 => Ok(Height::Five),
            10 => Ok(Height::Ten),
            _ => Err(UnknownHeight(number)),
        }
    }
}

impl fmt::Display for UnknownHeight {
    ghost output = { λ e. Some (codes "the height is 5 or 10") };

    fn fmt<W: fmt::Write>(&self, f: &mut fmt::Formatter<W>) -> fmt::Result {
        f.write_str("the height is 5 or 10")
    }
}

impl Error for UnknownHeight {}

impl Height {
    /// How many levels of nodes stand above the leaves.
    pub fn levels(self) -> usize
        ensures { result ≡ levels self }
    {
        self as usize
    }

    /// How many leaves, and so one-time keys, the tree has.
    pub fn keys(self) -> u32
        ensures { result ≡ 2 ^ levels self }
    {
        1 << self.levels()
    }
}
