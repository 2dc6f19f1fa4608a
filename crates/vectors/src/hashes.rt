// Digests and message authentication codes.
ghost use Rattle.std.specs.Prelude.{map};
ghost use Rattle.vectors.specs.declared.hashes.TheConstants.{DIGEST_VALUES, MAC_VALUES};

use anyhow::ensure;
use hash::hmac::hmac;
use sha256::sha256;
use shake256::shake256;
use vector_files::{Block, HashName, Names, Suite, over_hash};

const DIGEST_VALUES: &[&str] = &[
    "hash",
    "message",
    "message_fill",
    "message_length",
    "digest",
];

#[derive(Drop)]
pub(crate) struct Digests;

// A switch, since the calls that are tried are each hash's own, of two names.
impl Suite for Digests {
    ghost values = { map (λ name. name.now) DIGEST_VALUES.now };

    fn names() -> Names {
        Names {
            values: DIGEST_VALUES,
            cases: &[],
        }
    }

    fn check(&mut self, block: &Block) -> anyhow::Result<Option<bool>> {
        let message = block.message()?;
        let digest = match HashName::of(block)? {
            HashName::Sha256 => sha256(&message),
            HashName::Shake256 => shake256(&message),
        };
        Ok(Some(digest == block.array::<32>("digest")?))
    }
}

const MAC_VALUES: &[&str] = &[
    "hash",
    "key",
    "message",
    "message_fill",
    "message_length",
    "mac",
];

#[derive(Drop)]
pub(crate) struct Macs;

// A key of fewer bytes is filled up with zeros; a longer one is outside of what is offered. Some codes are given by their front alone.
impl Suite for Macs {
    ghost values = { map (λ name. name.now) MAC_VALUES.now };

    fn names() -> Names {
        Names {
            values: MAC_VALUES,
            cases: &[],
        }
    }

    fn check(&mut self, block: &Block) -> anyhow::Result<Option<bool>> {
        let given = block.bytes("key")?;
        if given.len() > 32 {
            return Ok(None);
        }
        let mut key = [0u8; 32];
        key[0..given.len()].copy_from_slice(&given);
        let message = block.message()?;
        let code = over_hash!(HashName::of(block)?, hmac(&key, &message));
        let mac = block.bytes("mac")?;
        ensure!(
            !mac.is_empty() && mac.len() <= 32,
            "a code has no bytes, or too many"
        );
        Ok(Some(&code[0..mac.len()] == mac.as_slice()))
    }
}
