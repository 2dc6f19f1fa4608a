//! Splitting a key sheet among the members of the group that owns the key.
#![tactic(auto)]

mod checking;
mod key_part;
mod labelled;
mod laws;
mod masking;
mod refusal;
mod sources;
mod splits;

pub use checking::check;
pub use laws::{pads_are_rows, pads_hide_rows};
pub use refusal::Refusal;
pub use sources::source_of;
pub use splits::split;
