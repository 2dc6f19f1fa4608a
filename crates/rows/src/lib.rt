//! Rows of 32 bytes, and the two strings that a tree is made of.
#![tactic(auto)]

mod bytes;
mod fixed;
mod origin;
mod sums;

pub use bytes::{Row, put, put_row, row_at};
pub use fixed::{Fixed, Identifier, Seed};
pub use origin::Origin;
pub use sums::{UnequalLengths, add, add_row, sum};
