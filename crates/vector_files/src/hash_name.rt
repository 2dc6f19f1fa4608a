// The two hashes, by the names that vectors give them.
ghost use Rattle.std.specs.Prelude.{◌≡◌, Some, codes, MatchResult, ◌≢◌};
ghost use Rattle.vector_files.specs.Blocks.{value_of};
ghost use Rattle.vector_files.specs.Hashes.{name_of};
ghost use Rattle.vector_files.specs.declared.hash_name.HashName.{HashName};

use crate::blocks::Block;
use std::error::Error;
use std::fmt;

#[derive(Clone, Copy, PartialEq, Eq, Debug)]
pub enum HashName {
    Sha256,
    Shake256,
}

// A name of no hash that is known.
#[derive(Clone, Copy, PartialEq, Eq, Debug)]
pub struct UnknownHash;

impl fmt::Display for UnknownHash {
    ghost output = { λ e. Some (codes "a vector names an unknown hash") };

    fn fmt<W: fmt::Write>(&self, f: &mut fmt::Formatter<W>) -> fmt::Result {
        f.write_str("a vector names an unknown hash")
    }
}

impl Error for UnknownHash {}

impl TryFrom<&str> for HashName {
    ghost use Rattle.vector_files.specs.Hashes.{name_of};
    ghost use Rattle.vector_files.specs.declared.hash_name.HashName.{HashName};

    type Error = UnknownHash;

    ghost try_from_gives = { λ name r. MatchResult r (λ h. name.now ≡ name_of h) (λ _. (h : HashName) → name.now ≢ name_of h) };

    fn try_from(name: &str) -> Result<HashName, UnknownHash> {
        match name {
            "sha256" => Ok(HashName::Sha256),
            "shake256" => Ok(HashName::Shake256),
            _ => Err(UnknownHash),
        }
    }
}

impl HashName {
    // The hash that a block names.
    pub fn of(block: &Block) -> anyhow::Result<HashName>
        ensures { MatchResult result
            (λ h. value_of (codes "hash") block.now ≡ Some (name_of h))
            (λ _. (h : HashName) → value_of (codes "hash") block.now ≢ Some (name_of h)) }
    {
        Ok(HashName::try_from(block.required("hash")?)?)
    }
}
