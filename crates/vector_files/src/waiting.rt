// What waits for calls that are not there yet.
ghost use Rattle.std.specs.Prelude.{◌≡◌};
ghost use Rattle.vector_files.specs.Waits.{block_waits, line_waits};

use crate::blocks::Block;
use crate::names::has;

/// What vector files hold for calls that are not there yet: cases that a program passes over, and
/// counts as such.
#[derive(Clone, Copy)]
pub struct Waiting {
    /// Files of which every block waits.
    pub files: &'static [&'static str],
    /// Values of `call`: a block that has one of them waits, with all its lines.
    pub calls: &'static [&'static str],
    /// Names: in the other blocks, each line that has one of them waits.
    pub lines: &'static [&'static str],
}

impl Waiting {
    /// Nothing waits.
    pub const NOTHING: Waiting = Waiting {
        files: &[],
        calls: &[],
        lines: &[],
    };

    pub(crate) fn has_block(&self, block: &Block) -> bool
        ensures { result ≡ block_waits self.now block.now }
    {
        block.text("call").is_some_and(|call| has(self.calls, call))
    }

    pub(crate) fn has_line(&self, name: &str) -> bool
        ensures { result ≡ line_waits self.now name.now }
    {
        has(self.lines, name)
    }
}
