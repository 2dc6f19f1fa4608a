// A dealer, who holds the whole tree of an identifier and a seed.
ghost use Rattle.std.specs.Prelude.{◌≡◌};

use hash::Hash;
use lms::scheme::Tree;
use plan::Plan;

/// The dealer of a plan, who holds the identifier and the seed of a tree, and the whole tree.
#[derive(Drop)]
pub struct Dealer<H: Hash> {
    pub(crate) plan: Plan,
    pub(crate) tree: Tree<H>,
    ghost tall: { tree.height ≡ plan.height },
    ghost wide: { tree.width ≡ plan.width },
}
