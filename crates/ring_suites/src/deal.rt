// What the dealer of a setting gives.
use crate::setting::{Setting, rows_of_key};
use crate::sources::hmac_sources;
use anyhow::Context;
use dealer::Dealer;
use hash::Hash;
use layout::table_rows;
use splitting::split;

// The root, and the key sheet and the part of one key.
#[derive(Drop)]
pub(crate) struct Dealt {
    pub(crate) root: Vec<u8>,
    pub(crate) sheet: Vec<u8>,
    pub(crate) part: Vec<u8>,
}

// Hands on that a call was accepted.
fn accepted<E: Drop>(answer: Result<(), E>) -> anyhow::Result<()> {
    answer.ok().context("a vector's key is refused")
}

fn dealer_of<H: Hash>(setting: &Setting) -> anyhow::Result<Dealer<H>> {
    Ok(Dealer::<H>::new(setting.heap, setting.plan, setting.origin)?)
}

pub(crate) fn deal_key<H: Hash>(setting: &Setting, key: u32) -> anyhow::Result<Dealt> {
    let heap = setting.heap;
    let dealer = dealer_of::<H>(setting)?;
    let sources = hmac_sources::<H>(heap, &setting.pad_keys)?;
    let mut root = vec![in heap; 0u8; 56]?;
    accepted(dealer.root(&mut root))?;
    let mut sheet = vec![in heap; 0u8; 32 * rows_of_key(&setting.plan, key)]?;
    accepted(dealer.key_sheet(&sources, key, &mut sheet))?;
    let mut part = sheet.clone()?;
    accepted(split(&setting.plan, &sources, key, &mut part))?;
    Ok(Dealt { root, sheet, part })
}

// The dealer's signature, of a stated length.
pub(crate) fn sign<H: Hash>(
    setting: &Setting,
    key: u32,
    message: &[u8],
    length: usize,
) -> anyhow::Result<Vec<u8>> {
    let dealer = dealer_of::<H>(setting)?;
    let mut signature = vec![in setting.heap; 0u8; length]?;
    accepted(dealer.sign(key, message, &mut signature))?;
    Ok(signature)
}

// The whole public table.
pub(crate) fn deal_table<H: Hash>(setting: &Setting) -> anyhow::Result<Vec<u8>> {
    let dealer = dealer_of::<H>(setting)?;
    let sources = hmac_sources::<H>(setting.heap, &setting.pad_keys)?;
    let mut table = vec![in setting.heap; 0u8; 32 * table_rows(&setting.plan)]?;
    accepted(dealer.deal_table(&sources, &mut table))?;
    Ok(table)
}
