// Laws of the definitions, each on a call that any program can make.
ghost use Rattle.lmots.specs.Laws.{ChainCut, ChecksumGuards, Figures};

/// Carries the law that a chain cut in two is the chain; it does nothing when it runs.
pub fn chain_cut()
    ensures { ChainCut }
{}

/// Carries the law that of two different digests each has some larger digit, which is what the
/// checksum is for; it does nothing when it runs.
pub fn checksum_guards()
    ensures { ChecksumGuards }
{}

/// Carries the figures of RFC 8554's tables and examples of digits; it does nothing when it runs.
pub fn figures_hold()
    ensures { Figures }
{}
