// What comes of a folder.
ghost use Rattle.std.specs.Prelude.{◌≡◌, ◌↔◌, IsOk};

use anyhow::anyhow;

/// What comes of the files of a folder.
#[derive(Clone, Copy, PartialEq, Eq, Debug)]
pub enum Verdict {
    /// A file was run, and no case is wrong.
    Good,
    /// No file was run.
    NoFile,
    /// A file was run, and some case is wrong.
    Wrong,
}

impl Verdict {
    /// It is an error if the verdict is not good.
    pub fn accept(self) -> anyhow::Result<()>
        ensures { IsOk result ↔ (self ≡ Verdict.Good) }
    {
        match self {
            Verdict::Good => Ok(()),
            Verdict::NoFile => Err(anyhow!("no vector file was found")),
            Verdict::Wrong => Err(anyhow!("some cases are wrong")),
        }
    }
}
