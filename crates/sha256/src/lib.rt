//! SHA-256 (FIPS 180-4).
#![tactic(auto)]

ghost use Rattle.std.specs.Prelude.{◌≡◌};
ghost use Rattle.sha256.specs.Fips180.{sha256 as standard};

mod eight;
mod hasher;
mod padding;
mod words;

pub use hasher::Hasher;

/// The SHA-256 of a message.
pub fn sha256(message: &[u8]) -> [u8; 32]
    ensures { result ≡ standard message.now }
{
    hash::digest::<Hasher>(message)
}
