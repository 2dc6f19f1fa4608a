// A key's part, by what its labels depend on.
ghost use Rattle.std.specs.Prelude.{◌≤◌};

use sizes::{Height, Width};

// A key's part in a group of some members.
#[derive(Clone, Copy)]
pub(crate) struct KeyPart {
    pub(crate) height: Height,
    pub(crate) width: Width,
    pub(crate) members: usize,
    pub(crate) key: u32,
    ghost few: { members ≤ 8 },
}
