// Pads by HMAC under a key of 32 bytes: every key is held.
ghost use Rattle.std.specs.Prelude.{◌≡◌, ℕ, ◌<◌, List, [], take, slice_index_or};
ghost use Rattle.hash.specs.Rfc2104.{hmac_of};
ghost use Rattle.pads.specs.Labels.{label_bytes, check_bytes};
ghost use Rattle.pads.specs.Source.{by_mac, mac_under};
ghost use Rattle.pads.specs.declared.label.Label.{Label as Name};

use crate::interface::Pads;
use crate::label::{Label, check_pad_label};
use hash::Hash;
use hash::hmac::HmacKey;
use rows::Row;

/// Pads that are HMAC (RFC 2104) of labels, over any hash, under a key of 32 bytes.
///
/// The key's two half-fed hashes are kept, so that a pad costs no block of the key.
#[derive(Clone, Copy)]
pub struct HmacPads<H> {
    key: HmacKey<H>,
}

impl<H: Hash> HmacPads<H> {
    /// The pads under a key: a label's is the HMAC of its 8 bytes, and a check pad that of 40.
    pub fn new(key: &[u8; 32]) -> HmacPads<H>
        ensures pads { (label : Name) →
            (⟦<HmacPads<H> as Pads>⟧.source result).pad label
            ≡ hmac_of H.hashed H.block key.now (label_bytes label) }
        ensures checks { (k : ℕ) (prefix : List ℕ) →
            (⟦<HmacPads<H> as Pads>⟧.source result).check k prefix
            ≡ hmac_of H.hashed H.block key.now (check_bytes k prefix) }
    {
        HmacPads {
            key: HmacKey::new(key),
        }
    }
}

// The label at the front of a text.
fn text_of(label: Label) -> [u8; 64]
    ensures { take 8 result ≡ label_bytes label }
{
    let mut text = [0u8; 64];
    text[0..8].copy_from_slice(&label.bytes());
    text
}

fn texts_of(labels: &[Label; 8]) -> [[u8; 64]; 8]
    ensures { (n : ℕ) (d : Name) → n < 8 →
        take 8 (slice_index_or result n []) ≡ label_bytes (slice_index_or labels.now n d) }
{
    labels.map(text_of)
}

impl<H: Hash> Pads for HmacPads<H> {
    ghost source = { λ p. by_mac (mac_under H.state H.fed H.closed p.key) };

    ghost pads_are_rows = { λ p label.
        record { long = H.closed_long _; bytes = H.closed_bytes _ } };

    ghost check_pads_are_rows = { λ p key prefix.
        record { long = H.closed_long _; bytes = H.closed_bytes _ } };

    fn holds(&self, _key: u32) -> bool {
        true
    }

    fn pad(&self, label: Label) -> Row {
        self.key.mac(&label.bytes())
    }

    fn check_pad(&self, key: u32, prefix: &Row) -> Row {
        self.key.mac(&check_pad_label(key, prefix))
    }

    fn pads(&self, labels: &[Label; 8]) -> [Row; 8] {
        self.key.mac_each(&texts_of(labels), 8)
    }
}
