// What is asked of the trustees' pad sources.
ghost use Rattle.std.specs.Prelude.{◌≡◌, ◌-◌, ◌≤◌, ◌↔◌, map, length, replicate, Some, slice_get, IsSome, IfSome, MatchOption};
ghost use Rattle.std.specs.Str.{bytes_eq};
ghost use Rattle.plan.specs.Members.{members};
ghost use Rattle.splitting.specs.Sources.{clash, clashes_any, distinct, no_source, source_of, all_hold};

use pads::Pads;
use plan::Group;

// Whether two sources have the same check pad for key 0 and a zero prefix.
fn same_check<P: Pads>(a: &P, b: &P) -> bool
    ensures { result ≡
        bytes_eq ((P.source a.now).check 0 (replicate 32 0))
        ((P.source b.now).check 0 (replicate 32 0)) }
{
    a.check_pad(0, &[0; 32]) == b.check_pad(0, &[0; 32])
}

// Whether two sources hold key 0 and have the same check pad for it and a zero prefix.
fn clash<P: Pads>(a: &P, b: &P) -> bool
    ensures { result ≡ clash (P.source a.now) (P.source b.now) }
{
    a.holds(0) && b.holds(0) && same_check(a, b)
}

fn clashes_any<P: Pads>(a: &P, others: &[P]) -> bool
    ensures { result ≡ clashes_any (P.source a.now) (map P.source others.now) }
{
    others.iter().any(|b| clash(a, b))
}

// Whether no two sources clash.
pub(crate) fn distinct<P: Pads>(sources: &[P]) -> bool
    ensures { result ≡ distinct (map P.source sources.now) }
{
    // An iterator would give each source, and not those behind it.
    let mut rest = sources;
    while let Some((source, others)) = rest.split_first() {
        if clashes_any(source, others) {
            return false;
        }
        rest = others;
    }
    true
}

/// A trustee's source, where there is one. Trustees count from 1, so trustee 0 has none.
pub fn source_of<P: Pads>(sources: &[P], trustee: u8) -> Option<&P>
    ensures there { IsSome result ↔ ((1 ≤ trustee) × (trustee ≤ length sources.now)) }
    ensures place { IfSome result (λ source.
        slice_get sources.now (trustee - 1) ≡ Some source.now) }
    ensures means { MatchOption result
        (source_of (map P.source sources.now) trustee ≡ no_source)
        (λ source. source_of (map P.source sources.now) trustee ≡ P.source source.now) }
{
    sources.get(trustee.checked_sub(1)? as usize)
}

// Whether a trustee's source holds a key.
fn holds<P: Pads>(sources: &[P], trustee: u8, key: u32) -> bool
    ensures { result ≡ (source_of (map P.source sources.now) trustee).held key }
{
    source_of(sources, trustee).is_some_and(|source| source.holds(key))
}

// Whether the sources of all members hold a key.
pub(crate) fn all_hold<P: Pads>(sources: &[P], group: &Group, key: u32) -> bool
    ensures { result ≡ all_hold (map P.source sources.now) (members group.now.mask) key }
{
    group.members().all(|trustee| holds(sources, trustee, key))
}
