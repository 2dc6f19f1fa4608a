// Numbers in columns: decimal, right-justified with spaces, without leading zeros.
#![tactic(auto)]

mod numbers;

pub use numbers::{is_blank, number_in};
