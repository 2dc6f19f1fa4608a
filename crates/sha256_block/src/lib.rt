//! The block computation of SHA-256 (FIPS 180-4, section 6.2.2), one block at a time and eight at once.
#![tactic(auto)]

mod constants;
mod lanes;
mod rounds;
mod scalar;
mod word;

pub use lanes::compress_eight;
pub use scalar::compress;
