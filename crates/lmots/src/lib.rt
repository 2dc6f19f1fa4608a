//! LM-OTS, the one-time signatures of RFC 8554, over any hash of 32 bytes.
#![tactic(auto)]

mod deal;
mod digits;
mod keys;
mod lanes;
mod laws;
mod opening;
mod refusal;
mod selected;
mod single;

pub use deal::write_positions;
pub use digits::{chain_count, position, position_count, selection};
pub use keys::{candidate_key, public_keys};
pub use laws::{chain_cut, checksum_guards, figures_hold};
pub use opening::opened;
pub use refusal::Refusal;
pub use selected::write_selected;
pub use single::{digest_of, prefix_of};
