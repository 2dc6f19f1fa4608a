// Laws of the definitions, each on a call that any program can make.
ghost use Rattle.lms.specs.Laws.{Figures, LeafToRoot, LengthsHold, SigningSound};

/// Carries the law that a leaf with its path gives the root; it does nothing when it runs.
pub fn leaf_to_root()
    ensures { LeafToRoot }
{}

/// Carries the law that what is signed is accepted, over every hash of 32 bytes; it does nothing
/// when it runs.
pub fn signing_sound()
    ensures { SigningSound }
{}

/// Carries the lengths of roots and signatures; it does nothing when it runs.
pub fn lengths_hold()
    ensures { LengthsHold }
{}

/// Carries the lengths of two signatures in bytes; it does nothing when it runs.
pub fn figures_hold()
    ensures { Figures }
{}
