// What a pad is for: a row of a key.
ghost use Rattle.std.specs.Prelude.{◌≡◌};
ghost use Rattle.pads.specs.Labels.{label_bytes, check_bytes};
ghost use Rattle.pads.specs.Labelled.{prefix_label, check_row_label, path_label, chain_label};

use rows::{Row, put};

// Level i of the path.
pub(crate) const PATH: u8 = 1;

// Position j of chain i.
pub(crate) const CHAIN: u8 = 2;

// The prefix.
pub(crate) const PREFIX: u8 = 4;

// The check row of the member at position i.
pub(crate) const CHECK_ROW: u8 = 5;

// The check pad of a prefix.
const CHECK_PAD: u8 = 10;

/// What a pad is for: a row of a key.
///
/// `kind` says what the row is, `key` is the number of the one-time key, and `i` and `j` say which
/// row of its kind it is; those that a kind does not use are 0. The kind is a byte and no enum,
/// since HMAC is computed over it, whatever byte it is.
#[derive(Clone, Copy, PartialEq, Eq, Debug)]
pub struct Label {
    pub kind: u8,
    pub key: u32,
    pub i: u16,
    pub j: u8,
}

impl Label {
    /// The label of a level of the key's path, from 0 at the leaf.
    pub fn path(key: u32, level: u16) -> Label
        ensures { result ≡ path_label key level }
    {
        Label {
            kind: PATH,
            key,
            i: level,
            j: 0,
        }
    }

    /// The label of a position of one of the key's chains, both from 0.
    pub fn chain(key: u32, chain: u16, position: u8) -> Label
        ensures { result ≡ chain_label key chain position }
    {
        Label {
            kind: CHAIN,
            key,
            i: chain,
            j: position,
        }
    }

    /// The label of the key's prefix.
    pub fn prefix(key: u32) -> Label
        ensures { result ≡ prefix_label key }
    {
        Label {
            kind: PREFIX,
            key,
            i: 0,
            j: 0,
        }
    }

    /// The label of a member's check row, by her position in the group, from 0.
    pub fn check_row(key: u32, member: u16) -> Label
        ensures { result ≡ check_row_label key member }
    {
        Label {
            kind: CHECK_ROW,
            key,
            i: member,
            j: 0,
        }
    }

    /// Its 8 bytes: kind, key, i and j, each with its top byte first.
    pub fn bytes(&self) -> [u8; 8]
        ensures { result ≡ label_bytes self.now }
    {
        let [k0, k1, k2, k3] = self.key.to_be_bytes();
        let [i0, i1] = self.i.to_be_bytes();
        [self.kind, k0, k1, k2, k3, i0, i1, self.j]
    }
}

// The 40 bytes of a check pad's label: kind 10 and the key, and the prefix behind them.
pub(crate) fn check_pad_label(key: u32, prefix: &Row) -> [u8; 40]
    ensures { result ≡ check_bytes key prefix.now }
{
    let label = Label {
        kind: CHECK_PAD,
        key,
        i: 0,
        j: 0,
    };
    let mut bytes = [0; 40];
    put(&mut bytes, 0, &label.bytes());
    put(&mut bytes, 8, prefix);
    bytes
}
