//! The tape: a ledger on borrowed bytes, with a line for each key that was spent.
//!
//! [`Tape`] is such a ledger; [`Tape::check`] tells first whether the bytes are in order.
//! [`spend_on_two`] spends a key on the tapes of two owners, on both or on neither.
#![tactic(auto)]

mod line;
mod lines;
mod refusal;
mod spending;
mod tapes;
mod two;

pub use refusal::Refusal;
pub use tapes::Tape;
pub use two::spend_on_two;
