//! The two sizes of a tree: its height, and the width of the digits that its one-time keys sign.
//! They are no one struct: one-time signatures have a width and no height, and ledgers a height and
//! no width.
#![tactic(auto)]

mod height;
mod laws;
mod width;

pub use height::{Height, UnknownHeight};
pub use laws::sizes_hold;
pub use width::{UnknownWidth, Width};
