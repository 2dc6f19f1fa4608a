// A tree that was grown once, with all its nodes.
ghost use Rattle.std.specs.Prelude.{◌≡◌};

use hash::Hash;
use rows::{Origin, Row};
use sizes::{Height, Width};
use std::marker::{Model, PhantomData};

/// A grown tree. Contracts see its height, its width and its origin, of which its nodes are those of
/// RFC 8554, 5.3.
// Node r stands at place r; place 0 is unused, and the root is node 1.
#[derive(Drop)]
pub struct Tree<H: Hash> {
    pub(crate) height: Height,
    pub(crate) width: Width,
    pub(crate) origin: Origin,
    pub(crate) nodes: Vec<Row>,
    pub(crate) hash: PhantomData<H>,
}

impl<H: Hash> Model for Tree<H> {
    ghost use Rattle.sizes.specs.Sizes.{bits, levels};
    ghost use Rattle.lms.specs.Grown.{Grown};
    ghost use Rattle.lms.specs.Nodes.{Whole};

    ghost Value = { Grown };

    ghost view = { λ t. record { height = t.height; width = t.width; origin = t.origin } };

    ghost invariant = { λ t. Whole H.hashed t.origin.id.bytes t.origin.seed.bytes
        (levels t.height) (bits t.width) t.nodes.items };
}

impl<H: Hash> Tree<H> {
    /// What the tree was grown from.
    pub fn origin(&self) -> Origin
        ensures { result ≡ self.now.origin }
    {
        self.origin
    }
}
