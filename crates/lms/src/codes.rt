// The codes of a height and of a width, and back.
// They are no `From` or `TryFrom`: a code depends on the hash's base too, and these convert one
// value alone.
ghost use Rattle.std.specs.Prelude.{◌≡◌};
ghost use Rattle.std.specs.Option.{option_map};
ghost use Rattle.sizes.specs.Sizes.{bits, levels};
ghost use Rattle.lms.specs.Lms.{height_of, ots_code, tree_code, width_of};

use hash::Hash;
use sizes::{Height, Width};

// The LM-OTS code of a width.
pub(crate) fn ots_code<H: Hash>(width: Width) -> u32
    ensures { result ≡ ots_code H.ots (bits width) }
{
    let more = match width {
        Width::One => 0,
        Width::Two => 1,
        Width::Four => 2,
        Width::Eight => 3,
    };
    H::ots_base() as u32 + more
}

// The tree code of a height.
pub(crate) fn tree_code<H: Hash>(height: Height) -> u32
    ensures { result ≡ tree_code H.tree (levels height) }
{
    let more = match height {
        Height::Five => 0,
        Height::Ten => 1,
    };
    H::tree_base() as u32 + more
}

// The height for which a tree code stands.
pub(crate) fn height_of<H: Hash>(code: u32) -> Option<Height>
    ensures { option_map levels result ≡ height_of H.tree code }
{
    match code.checked_sub(H::tree_base() as u32)? {
        0 => Some(Height::Five),
        1 => Some(Height::Ten),
        _ => None,
    }
}

// The width for which an LM-OTS code stands.
pub(crate) fn width_of<H: Hash>(code: u32) -> Option<Width>
    ensures { option_map bits result ≡ width_of H.ots code }
{
    match code.checked_sub(H::ots_base() as u32)? {
        0 => Some(Width::One),
        1 => Some(Width::Two),
        2 => Some(Width::Four),
        3 => Some(Width::Eight),
        _ => None,
    }
}
