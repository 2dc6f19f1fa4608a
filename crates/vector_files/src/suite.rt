// What a file of one kind holds.
ghost use Rattle.std.specs.Prelude.{◌≡◌, ⊤, ℕ, Bool, List, [], Option, IfOk};
ghost use Rattle.vector_files.specs.Field.{Lines};
ghost use Rattle.vector_files.specs.Names.{texts};

use crate::blocks::Block;
use crate::names::Names;
use anyhow::anyhow;

/// The cases of one kind of file. A program asks it block by block, in the file's order, and after
/// each block about those of its lines that are cases by themselves.
pub trait Suite {
    // The names that its blocks may have: of values, and of lines that are cases.
    ghost values: { List (List ℕ) };

    ghost cases: { List (List ℕ) } = { [] };

    // What it may answer on a block, and in which state that leaves it; it is free to promise nothing.
    ghost answers: { Self → Lines → Option Bool → Self → Type 0 } = { λ _ _ _ _. ⊤ };

    // The same of a line, by its name.
    ghost line_answers: { Self → Lines → List ℕ → Bool → Self → Type 0 } = { λ _ _ _ _ _. ⊤ };

    /// The names that its blocks may have, beside those of `COMMENTS`.
    fn names() -> Names
        ensures values { texts result.values.now ≡ values }
        ensures cases { texts result.cases.now ≡ cases };

    /// Whether the case of a block comes out; none where the block is no case.
    fn check(&mut self, block: &Block) -> anyhow::Result<Option<bool>>
        ensures { IfOk result (λ answer. answers self.old block.now answer self.new) };

    /// Whether the case of a line comes out, if its name is one of the cases'. Its block was checked
    /// before.
    fn check_line(&mut self, _block: &Block, _name: &str) -> anyhow::Result<bool>
        ensures { IfOk result (λ right. line_answers self.old _block.now _name.now right self.new) }
    {
        Err(anyhow!("no line of this file is a case"))
    }
}
