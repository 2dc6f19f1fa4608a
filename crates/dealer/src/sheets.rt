// Key sheets: all rows of a key before they are split.
ghost use Rattle.std.specs.Prelude.{◌≡◌, ℕ, ◌*◌, ◌^◌, ◌<◌, map, length, OnOk, MatchResult, slice_index};
ghost use Rattle.std.specs.Result.{result_err};
ghost use Rattle.sizes.specs.Sizes.{levels, bits};
ghost use Rattle.plan.specs.Members.{members};
ghost use Rattle.layout.specs.Part.{part_rows};
ghost use Rattle.rows.specs.Bytes.{rows};
ghost use Rattle.splitting.specs.Sources.{source_of};
ghost use Rattle.dealer.specs.Sheet.{sheet_for, key_sheet};
ghost use Rattle.dealer.specs.Dealt.{plan_of, deal_of, sheet_refusal};
ghost use Rattle.dealer.specs.Laws.{Labelled};

use crate::dealers::Dealer;
use crate::refusal::Refusal;
use hash::Hash;
use lms::scheme;
use pads::Pads;
use plan::Group;
use rows::{Row, put, put_row};
use splitting::{check, source_of};

// A trustee's check pad for a key and a prefix. This is no `map_or`, since a proof learns nothing
// from a closure over an array with no clause of its own, which would be as long as the arms.
fn check_pad<P: Pads>(sources: &[P], trustee: u8, key: u32, prefix: &Row) -> Row
    ensures { result ≡ (source_of (map P.source sources.now) trustee).check key prefix.now }
{
    match source_of(sources, trustee) {
        Some(source) => source.check_pad(key, prefix),
        None => [0; 32],
    }
}

// Writes the check row of each member over all of a buffer, by number, since a proof does not know
// what a slice holds after `chunks_exact_mut`.
fn write_checks<P: Pads>(sources: &[P], group: &Group, key: u32, prefix: &Row, out: &mut [u8])
    requires { length out.old ≡ 32 * length (members group.now.mask) }
    ensures { let ts = members group.now.mask in out.new ≡ rows (length ts) (λ i.
        (source_of (map P.source sources.now) (slice_index ts i)).check key prefix.now) }
{
    for (i, trustee) in group.members().enumerate() {
        let row = check_pad(sources, trustee, key, prefix);
        put_row(out, i, &row);
    }
}

impl<H: Hash> Dealer<H> {
    // The key sheet of a key of a group, with nothing left to refuse.
    pub(crate) fn write_sheet<P: Pads>(
        &self,
        sources: &[P],
        group: &Group,
        key: u32,
        out: &mut [u8],
    )
        requires small { key < 2 ^ (plan_of self.now).height }
        requires room { length out.old ≡ 32 * part_rows
            (plan_of self.now).height (plan_of self.now).width (length (members group.now.mask)) }
        ensures { out.new ≡ sheet_for (deal_of H.hashed self.now (map P.source sources.now))
            (members group.now.mask) key }
    {
        let height = self.plan.height();
        let origin = self.tree.origin();
        let path = 32 + 32 * group.size();
        let components = path + 32 * height.levels();
        let prefix = scheme::prefix::<H>(origin, key);
        put(out, 0, &prefix);
        write_checks(sources, group, key, &prefix, &mut out[32..path]);
        self.tree
            .write_path(key, &mut out[path..components])
            .unwrap();
        let width = self.plan.width();
        let rest = &mut out[components..];
        scheme::write_components::<H>(height, width, origin, key, rest).unwrap();
    }

    /// Writes the key sheet of a dealt key over all of a buffer: rows of 32 bytes, the prefix, the
    /// members' check rows, the path from level 0, and the chains, position by position.
    ///
    /// Refuses, in this order: sources that are not as many as trustees (8), two with the same
    /// check pad (6), a key that is not dealt (9), a buffer that has not the length of the key's
    /// part (20), and a member's source that does not hold the key (7).
    pub fn key_sheet<P: Pads>(&self, sources: &[P], key: u32, out: &mut [u8]) -> Result<(), Refusal>
        ensures answer { result_err result
            ≡ sheet_refusal (plan_of self.now) (map P.source sources.now) key (length out.old) }
        ensures written { MatchResult result
            (λ _. out.new ≡ key_sheet (deal_of H.hashed self.now (map P.source sources.now)) key)
            (λ _. out.new ≡ out.old) }
        ensures labelled { OnOk result
            (Labelled (deal_of H.hashed self.now (map P.source sources.now)) key out.new) }
    {
        let group = check(&self.plan, sources, key, out.len())?;
        self.write_sheet(sources, &group, key, out);
        Ok(())
    }
}
