// Laws of splitting, on calls that any program can make.
ghost use Rattle.std.specs.Prelude.{List, map};
ghost use Rattle.splitting.specs.Hiding.{Hiding};
ghost use Rattle.splitting.specs.Sources.{PadsAreRows};

use pads::Pads;

/// Carries the laws of what a part hides: where a row and one member's pad at its label change
/// together, the part stays the same, so that any other rows of a key would give it with some other
/// pads of hers; and refusals depend on no pad. It does nothing when it runs.
#[tactic(auto, using(crate::proofs::PadsHide::hiding))]
pub fn pads_hide_rows()
    ensures { Hiding }
{}

/// Carries the law that every pad and check pad of every trustee's source is a row of 32 bytes,
/// whether or not the key is held. It does nothing when it runs.
pub fn pads_are_rows<P: Pads>()
    ensures { (sources : List P) → PadsAreRows (map P.source sources) }
{}
