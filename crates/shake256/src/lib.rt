//! SHAKE256 (FIPS 202) with 32 bytes of output.
#![tactic(auto)]

ghost use Rattle.std.specs.Prelude.{◌≡◌};
ghost use Rattle.shake256.specs.Fips202.{shake256 as standard};

mod hasher;
mod padding;
mod pairs;
mod state;

pub use hasher::Hasher;

/// The first 32 bytes of the SHAKE256 of a message.
pub fn shake256(message: &[u8]) -> [u8; 32]
    ensures { result ≡ standard message.now }
{
    hash::digest::<Hasher>(message)
}
