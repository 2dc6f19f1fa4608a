// The names of values.
ghost use Rattle.std.specs.Prelude.{◌≡◌};
ghost use Rattle.vector_files.specs.Names.{begins, has, texts, is_remark};

/// Names that every block may have: their values say something to a reader, and to no program.
pub const COMMENTS: [&str; 4] = ["case", "comment", "note", "source"];

/// The names that a suite's blocks may have, beside those that every block may have.
#[derive(Clone, Copy)]
pub struct Names {
    /// Names of values that cases are made of.
    pub values: &'static [&'static str],
    /// Names of lines that are cases by themselves.
    pub cases: &'static [&'static str],
}

/// Whether a list has a name.
pub(crate) fn has(list: &[&str], name: &str) -> bool
    ensures { result ≡ has (texts list.now) name.now }
{
    list.iter().any(|listed| *listed == name)
}

/// Whether every block may have the name.
pub(crate) fn is_remark(name: &str) -> bool
    ensures { result ≡ is_remark name.now }
{
    has(&COMMENTS, name)
}

/// Whether a name begins with one of some words.
pub(crate) fn begins(words: &[&str], name: &str) -> bool
    ensures { result ≡ begins (texts words.now) name.now }
{
    words.iter().any(|word| name.starts_with(*word))
}
