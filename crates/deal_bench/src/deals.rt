// Dealing: the tree of a plan of two of three trustees at width 4, and its whole public table.
use anyhow::Context;
use dealer::Dealer;
use hash::{Hash, digest};
use layout::table_rows;
use measuring::per_second;
use pads::HmacPads;
use plan::Plan;
use rows::{Identifier, Origin, Seed};
use sizes::{Height, Width};
use std::str;
use std::time::Instant;

// The three groups of two.
const MASKS: [u8; 3] = [3, 5, 6];

pub(crate) fn measure<H: Hash>(rt: &HostRuntime, name: &str, height: Height) -> anyhow::Result<()> {
    let plan = Plan::new(3, height, Width::Four, &MASKS).context("there is no such plan")?;
    let mut sources: Vec<HmacPads<H>> = Vec::new(rt.alloc());
    for trustee in 1..=plan.trustees() {
        sources.push(HmacPads::new(&[trustee; 32]))?;
    }
    let origin = Origin {
        id: Identifier::new([0x17; 16]),
        seed: Seed::new([0x2a; 32]),
    };
    let mut table = vec![in rt.alloc(); 0u8; 32 * table_rows(&plan)]?;
    let start = Instant::now(rt)?;
    let dealer = Dealer::<H>::new(rt.alloc(), plan, origin)?;
    let micros = start.elapsed(rt)?.as_micros();
    eprintln!(rt; "{name} deal_tree_micros {micros}")?;
    let start = Instant::now(rt)?;
    let dealt = (0..height.keys() - plan.undealt())
        .filter(|key| dealer.deal_part(&sources, *key, &mut table).is_ok())
        .count();
    let micros = start.elapsed(rt)?.as_micros();
    let parts = per_second(dealt as u64, micros);
    eprintln!(rt; "{name} deal_table_micros {micros}")?;
    eprintln!(rt; "{name} deal_parts {parts}")?;
    println!(rt; "{name} deal {dealt} parts")?;
    // Into an array, so that no memory is asked for.
    let mut text = [0u8; 64];
    hex::encode_to_slice(digest::<H>(&table), &mut text)?;
    let text = str::from_utf8(&text)?;
    println!(rt; "{name} deal {text}")?;
    Ok(())
}
