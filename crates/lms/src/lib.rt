//! LMS, the tree of one-time keys of RFC 8554, over any hash of 32 bytes.
#![tactic(auto)]

mod codes;
mod growing;
mod kept;
mod laws;
mod leaf;
mod nodes;
mod reading;
mod refusal;
pub mod scheme;
mod signing;
mod verifier;

pub use kept::Tree;
pub use laws::{figures_hold, leaf_to_root, lengths_hold, signing_sound};
pub use refusal::Refusal;
pub use verifier::verify;
