//! Measures dealing: the tree of a plan at width 4, and its whole public table over SHA-256.
//! Times go to standard error. To standard output goes a digest of the table.
#![tactic(auto)]

use anyhow::anyhow;
use sha256::Hasher as Sha256;
use sizes::Height;
use std::env;

mod deals;

const USAGE: &str = "\
usage: deal_bench [HEIGHT]
  HEIGHT  height of the tree, 5 or 10 (default 5)
Results go to standard output, and measures to standard error, as HASH MEASURE FIGURE.
";

// The height that is asked for, or none where the usage is.
fn asked_height(rt: &HostRuntime) -> anyhow::Result<Option<Height>> {
    let mut height = Height::Five;
    for (place, word) in env::args(rt)?.enumerate() {
        match place {
            0 => {}
            _ if word.as_str() == "--help" => return Ok(None),
            1 => height = Height::try_from(word.as_str().parse::<u32>()?)?,
            _ => return Err(anyhow!("too many arguments: see deal_bench --help")),
        }
    }
    Ok(Some(height))
}

fn main(rt: HostRuntime) -> anyhow::Result<()> {
    let Some(height) = asked_height(&rt)? else {
        rt.print(USAGE)?;
        return Ok(());
    };
    deals::measure::<Sha256>(&rt, "sha256", height)
}
