// Trees of LMS: growing one, and signing and verifying with it.
use crate::report::Report;
use hash::{Hash, digest};
use lms::scheme::signature_length;
use lms::{Tree, verify};
use rows::{Identifier, Origin, Seed};
use sizes::{Height, Width};
use std::time::Instant;

const WIDTH: Width = Width::Eight;

// Signs with every key in turn, and verifies; the digest is of the root and the last signature.
pub(crate) fn measure<H: Hash>(report: &Report, height: Height) -> anyhow::Result<()> {
    let rt = report.rt;
    let origin = Origin {
        id: Identifier::new([0x17; 16]),
        seed: Seed::new([0x2a; 32]),
    };
    let start = Instant::now(rt)?;
    let tree = Tree::<H>::grow(rt.alloc(), height, WIDTH, origin)?;
    let root = tree.root();
    report.micros("root_micros", &start)?;
    report.digest("root", &digest::<H>(&root))?;
    let mut signature = vec![in rt.alloc(); 0u8; signature_length(height, WIDTH)]?;
    let start = Instant::now(rt)?;
    let signed = (0..height.keys())
        .filter(|key| tree.sign(*key, &key.to_be_bytes(), &mut signature).is_ok())
        .count();
    report.rate("sign", &start, signed as u64)?;
    report.digest("sign", &digest::<H>(&signature))?;
    let start = Instant::now(rt)?;
    let message = (height.keys() - 1).to_be_bytes();
    let accepted = (0..height.keys())
        .filter(|_| verify::<H>(&root, &message, &signature))
        .count();
    report.rate("verify", &start, accepted as u64)?;
    println!(rt; "{} verify {accepted} of {signed}", report.hash)?;
    Ok(())
}
