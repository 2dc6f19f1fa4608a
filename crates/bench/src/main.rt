//! Measures both hashes: bulk, one block at a time, eight messages at once, and HMAC; and trees of LMS at width 8: root, signing, verifying.
//! Times go to standard error. To standard output goes a digest that depends on all that was computed.
#![tactic(auto)]

use anyhow::anyhow;
use hash::Hash;
use hash::hmac::HmacKey;
use report::Report;
use sha256::Hasher as Sha256;
use shake256::Hasher as Shake256;
use sizes::Height;
use std::env;
use std::time::Instant;

mod report;
mod trees;
mod work;

const USAGE: &str = "\
usage: bench [PIECES [HASHES [HEIGHT]]]
  PIECES  pieces of 16 KiB in the message for bulk (default 4)
  HASHES  hashes of 55 bytes to compute one by one, and again eight at once (default 500)
  HEIGHT  height of the tree, 5 or 10 (default 5)
Results go to standard output, and measures to standard error, as HASH MEASURE FIGURE.
";

#[derive(Clone, Copy)]
struct Sizes {
    pieces: u64,
    hashes: u64,
    height: Height,
}

fn read_sizes(rt: &HostRuntime) -> anyhow::Result<Option<Sizes>> {
    let mut sizes = Sizes {
        pieces: 4,
        hashes: 500,
        height: Height::Five,
    };
    for (place, word) in env::args(rt)?.enumerate() {
        match place {
            0 => {}
            _ if word.as_str() == "--help" => return Ok(None),
            1 => sizes.pieces = word.as_str().parse::<u64>()?,
            2 => sizes.hashes = word.as_str().parse::<u64>()?,
            3 => sizes.height = Height::try_from(word.as_str().parse::<u32>()?)?,
            _ => return Err(anyhow!("too many arguments: see bench --help")),
        }
    }
    Ok(Some(sizes))
}

// One long message, and messages one by one and eight at once.
fn measure_hash<H: Hash>(report: &Report, sizes: &Sizes) -> anyhow::Result<()> {
    let start = Instant::now(report.rt)?;
    let digest = work::bulk::<H>(sizes.pieces);
    let bytes = sizes.pieces.saturating_mul(work::PIECE as u64);
    report.rate("bulk_bytes", &start, bytes)?;
    report.digest("bulk", &digest)?;
    let (hashes, rounds) = (sizes.hashes, sizes.hashes / 8);
    report.timed("single", hashes, || {
        work::singly(hashes, |message| hash::digest::<H>(message))
    })?;
    let start = H::start();
    report.timed("eight", rounds * 8, || {
        work::by_eight::<H, _>(rounds, |messages| start.each(messages, 55))
    })
}

// HMAC under one key: texts one by one and eight at once.
fn measure_hmac<H: Hash>(report: &Report, sizes: &Sizes) -> anyhow::Result<()> {
    let key: HmacKey<H> = HmacKey::new(&[0xa5; 32]);
    let (hashes, rounds) = (sizes.hashes, sizes.hashes / 8);
    report.timed("mac_single", hashes, || {
        work::singly(hashes, |text| key.mac(text))
    })?;
    report.timed("mac_eight", rounds * 8, || {
        work::by_eight::<H, _>(rounds, |texts| key.mac_each(texts, 55))
    })
}

fn main(rt: HostRuntime) -> anyhow::Result<()> {
    let Some(sizes) = read_sizes(&rt)? else {
        rt.print(USAGE)?;
        return Ok(());
    };
    let sha256 = Report {
        rt: &rt,
        hash: "sha256",
    };
    let shake256 = Report {
        rt: &rt,
        hash: "shake256",
    };
    measure_hash::<Sha256>(&sha256, &sizes)?;
    measure_hash::<Shake256>(&shake256, &sizes)?;
    measure_hmac::<Sha256>(&sha256, &sizes)?;
    measure_hmac::<Shake256>(&shake256, &sizes)?;
    trees::measure::<Sha256>(&sha256, sizes.height)?;
    trees::measure::<Shake256>(&shake256, sizes.height)
}
