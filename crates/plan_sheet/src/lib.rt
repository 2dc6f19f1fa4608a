//! The plan sheet: a planner's text, how it is read, and what the program prints of it.
#![tactic(auto)]

mod cursor;
mod laws;
mod prints;
mod quantities;
mod reader;
mod refusal;
mod report;
mod tally;

pub use laws::sheets_hold;
pub use prints::ranges;
pub use reader::read;
pub use refusal::Refusal;
pub use report::{MOST_BYTES, Report, report_on};
