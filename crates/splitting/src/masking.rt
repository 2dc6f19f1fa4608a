// Pads added to the rows of a part.
ghost use Rattle.std.specs.Prelude.{◌≡◌, ℕ, ◌+◌, ◌*◌, ◌<◌, ◌≤◌, ◌⊎◌, [], map, length, slice_index_or};
ghost use Rattle.rows.specs.Bytes.{row_at, xored};
ghost use Rattle.plan.specs.Members.{members};
ghost use Rattle.splitting.specs.KeyParts.{label_in};
ghost use Rattle.splitting.specs.Sources.{padded};

use crate::key_part::KeyPart;
use crate::sources::source_of;
use pads::Pads;
use plan::Group;
use rows::{Row, add_row};

// Adds eight rows to those from row `first` on, as far as there are rows. Rows are altered by number,
// since a proof does not know what a slice holds after `chunks_mut`.
fn add_eight(out: &mut [u8], first: usize, pads: &[Row; 8])
    requires { first < 65528 }
    ensures new { (l : ℕ) → l < 8 → 32 * (first + l + 1) ≤ length out.old →
        row_at (first + l) out.new
        ≡ xored (row_at (first + l) out.old) (slice_index_or pads.now l []) }
    ensures old { (m : ℕ) → (m < first) ⊎ (first + 8 ≤ m) → row_at m out.new ≡ row_at m out.old }
{
    for (l, pad) in pads.iter().enumerate() {
        add_row(out, first + l, pad);
    }
}

// Adds a source's pads to all rows of a key's part. A part has at most 8,723 rows, as layout says, so
// a row's number fits in a label.
fn add_pads<P: Pads>(source: &P, part: KeyPart, out: &mut [u8])
    requires { length out.old ≤ 32 * 8723 }
    ensures { (m : ℕ) → 32 * (m + 1) ≤ length out.old →
        row_at m out.new ≡ xored (row_at m out.old) ((P.source source.now).pad (label_in part m)) }
{
    for first in (0..out.len() / 32).step_by(8) {
        let pads = source.pads(&part.labels(first));
        add_eight(out, first, &pads);
    }
}

// Adds the pads of all members of a group.
pub(crate) fn add_all<P: Pads>(sources: &[P], group: &Group, part: KeyPart, out: &mut [u8])
    requires { length out.old ≤ 32 * 8723 }
    ensures { (m : ℕ) → 32 * (m + 1) ≤ length out.old →
        row_at m out.new ≡ padded (map P.source sources.now) (members group.now.mask)
        (label_in part m) (row_at m out.old) }
{
    for trustee in group.members() {
        if let Some(source) = source_of(sources, trustee) {
            add_pads(source, part, out);
        }
    }
}
