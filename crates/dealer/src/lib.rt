//! The dealer: the root, key sheets, the public table and signatures of a plan, from one identifier
//! and one seed.
#![tactic(auto)]

mod dealers;
mod laws;
mod refusal;
mod sheets;
mod signed;
mod table;

pub use dealers::Dealer;
pub use laws::key_sheets_hold;
pub use refusal::Refusal;
