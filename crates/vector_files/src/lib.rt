// Vector files: lines of names and values in blocks, suites of cases over them, and the count.
#![tactic(auto)]

mod blocks;
mod count;
mod folder;
mod hash_name;
mod hex;
mod names;
mod program;
mod run;
mod suite;
mod text;
mod verdict;
mod waiting;

pub use blocks::{Block, Field};
pub use count::Count;
pub use folder::Folder;
pub use hash_name::{HashName, UnknownHash};
pub use hex::decode;
pub use names::{COMMENTS, Names};
pub use program::{Program, run_program};
pub use suite::Suite;
pub use text::blocks_of;
pub use verdict::Verdict;
pub use waiting::Waiting;

// Runs a function that is generic over a hash with the one that a name stands for; the caller's crate depends on both. A macro, since a closure
// is not generic over a hash.
#[macro_export]
macro_rules! over_hash {
    ($name:expr, $run:ident($($argument:expr),*)) => {
        match $name {
            $crate::HashName::Sha256 => $run::<sha256::Hasher>($($argument),*),
            $crate::HashName::Shake256 => $run::<shake256::Hasher>($($argument),*),
        }
    };
}
