// The parts of a plan.
ghost use Rattle.std.specs.Prelude.{◌≡◌, length};
ghost use Rattle.sizes.specs.Sizes.{levels, bits};
ghost use Rattle.plan.specs.View.{view};

use crate::plans::Plan;
use sizes::{Height, Width};

impl Plan {
    /// How many trustees there are, 1 to 8; they are numbered from 1.
    pub fn trustees(&self) -> u8
        ensures { result ≡ (view self.now).trustees }
    {
        self.trustees
    }

    /// The height of the signature tree.
    pub fn height(&self) -> Height
        ensures { levels result ≡ (view self.now).height }
    {
        self.height
    }

    /// The width of the digits that a one-time key signs.
    pub fn width(&self) -> Width
        ensures { bits result ≡ (view self.now).width }
    {
        self.width
    }

    /// How many groups there are, 1 to 70 and no more than keys; they are numbered from 0.
    pub fn groups(&self) -> usize
        ensures { result ≡ length (view self.now).masks }
    {
        self.groups
    }
}
