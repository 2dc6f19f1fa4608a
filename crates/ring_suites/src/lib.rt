// Suites over the dealer, the public table and its helper.
#![tactic(auto)]

mod deal;
mod lending;
mod once;
mod refusals;
mod setting;
mod sources;
mod splits;
mod tables;
mod waiting;

pub use refusals::Refusals;
pub use splits::Splits;
pub use tables::Tables;
pub use waiting::WAITING;
