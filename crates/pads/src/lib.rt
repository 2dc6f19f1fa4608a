//! Pads: the rows by which a trustee's share of a key is hidden, and the labels that name them.
#![tactic(auto)]

mod book;
mod choice;
mod hmac_pads;
mod interface;
mod label;
mod laws;

pub use book::Book;
pub use hmac_pads::HmacPads;
pub use interface::Pads;
pub use label::Label;
pub use laws::labels_hold;
