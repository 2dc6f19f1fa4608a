// Grows a small tree, signs a message with one of its keys, and shows the verdicts on the signature and on an altered one.
#![tactic(auto)]

use lms::{Tree, scheme, verify};
use rows::{Identifier, Origin, Seed};
use sha256::Hasher;
use sizes::{Height, Width};
use std::io;

fn main(rt: HostRuntime) -> io::Result<()> {
    let heap = rt.alloc();
    let origin = Origin {
        id: Identifier::new([0x1d; 16]),
        seed: Seed::new([0x5e; 32]),
    };
    let tree = Tree::<Hasher>::grow(heap, Height::Five, Width::Eight, origin)?;
    let root = tree.root();
    println!(rt; "root {root:?}")?;

    let message = b"the bridge opens at noon";
    let size = scheme::signature_length(Height::Five, Width::Eight);
    let mut signature = vec![in heap; 0u8; size]?;
    let signed = tree.sign(7, message, &mut signature).is_ok();
    println!(rt; "signed {signed}")?;
    let verdict = verify::<Hasher>(&root, message, &signature);
    println!(rt; "verdict {verdict}")?;

    if let Some(byte) = signature.get_mut(100) {
        *byte ^= 1;
    }
    let altered = verify::<Hasher>(&root, message, &signature);
    println!(rt; "verdict with one byte altered {altered}")?;
    let other = tree.sign(32, message, &mut signature);
    println!(rt; "key 32: {other:?}")?;
    Ok(())
}
