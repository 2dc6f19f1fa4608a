// What a tree is made from.
use crate::fixed::{Identifier, Seed};

/// The identifier and the seed from which all rows of a tree come.
#[derive(Clone, Copy)]
pub struct Origin {
    pub id: Identifier,
    pub seed: Seed,
}
