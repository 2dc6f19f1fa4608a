// The law of the sizes, on a call that any program can make.
ghost use Rattle.sizes.specs.Laws.{Offered};

/// Carries the law of heights and widths: they are just the numbers that are offered, each number
/// one value of its type. It does nothing when it runs.
pub fn sizes_hold()
    ensures { Offered }
{}
