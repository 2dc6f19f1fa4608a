//! Keccak-f[1600] (FIPS 202, section 3), on one state and on two at once.
#![tactic(auto)]

mod constants;
mod pairs;
mod rounds;
mod scalar;
mod word;

pub use pairs::permute_two;
pub use scalar::permute;
