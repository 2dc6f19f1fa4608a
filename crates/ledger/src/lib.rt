//! Ledgers: which one-time keys are spent, and for how many more there is room.
//!
//! [`Ledger`] is what every ledger is. [`Bitmap`] keeps its marks itself, [`Mirror`] spends on two
//! ledgers or on neither, an `Either` is a ledger of one of two kinds, and a `&mut` of a ledger is
//! a ledger too, so that one can be lent.
#![tactic(auto)]

mod bitmap;
mod choice;
mod free;
mod interface;
mod lent;
mod mirror;
mod refusal;
mod spending;

pub use bitmap::Bitmap;
pub use free::next_free;
pub use interface::Ledger;
pub use mirror::Mirror;
pub use refusal::Refusal;
pub use spending::{spend_all, spend_on, spend_on_both};
