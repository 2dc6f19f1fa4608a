// One key of a dealt plan: a file is one setting, and each line that speaks of the root, the key sheet, the part or the signature is a case.
ghost use Rattle.std.specs.Prelude.{map};
ghost use Rattle.ring_suites.specs.declared.splits.TheConstants.{VALUES, CASES};

use crate::deal::{Dealt, deal_key, sign};
use crate::setting::{Setting, rows_of_key};
use anyhow::{Context, anyhow};
use plan::Plan;
use sha256::sha256;
use std::alloc::{AllocError, Global};
use vector_files::{Block, Names, Suite, over_hash};

const VALUES: &[&str] = &[
    "hash",
    "plan_sheet",
    "identifier",
    "seed",
    "pad_key_1",
    "pad_key_2",
    "pad_key_3",
    "pad_key_4",
    "pad_key_5",
    "pad_key_6",
    "pad_key_7",
    "pad_key_8",
    "key",
    "message",
    "message_fill",
    "message_length",
];

const CASES: &[&str] = &[
    "root",
    "members",
    "part_rows",
    "sheet",
    "sheet_sha256",
    "sheet_first_rows",
    "part",
    "part_sha256",
    "part_first_rows",
    "part_last_row",
    "prefix",
    "check_rows",
    "signature",
];

/// The cases of a `split-*.txt` file, by what its blocks so far have said.
#[derive(Drop, Default)]
pub struct Splits {
    setting: Option<Setting>,
    dealt: Option<(u32, Dealt)>,
    message: Option<Vec<u8>>,
}

// Some bytes of others; none where they do not reach that far.
fn cut(heap: Global, bytes: &[u8], from: usize, to: usize) -> Result<Vec<u8>, AllocError> {
    bytes.get(from..to).unwrap_or(&[]).to_vec(heap)
}

// The bytes that a line on the root, the key sheet or the part has to have.
fn bytes_of_line(
    heap: Global,
    plan: &Plan,
    key: u32,
    dealt: &Dealt,
    name: &str,
) -> anyhow::Result<Vec<u8>> {
    let group = plan.owner(key).context("no group owns a vector's key")?;
    let checks = group.size().saturating_add(1).saturating_mul(32);
    let path = plan.height().levels().saturating_mul(32);
    let front = checks.saturating_add(path).saturating_add(32);
    let end = dealt.part.len();
    let bytes = match name {
        "root" => dealt.root.clone()?,
        "sheet" => dealt.sheet.clone()?,
        "sheet_sha256" => sha256(&dealt.sheet).to_vec(heap)?,
        "sheet_first_rows" => cut(heap, &dealt.sheet, 0, front)?,
        "prefix" => cut(heap, &dealt.sheet, 0, 32)?,
        "check_rows" => cut(heap, &dealt.sheet, 32, checks)?,
        "part" => dealt.part.clone()?,
        "part_sha256" => sha256(&dealt.part).to_vec(heap)?,
        "part_first_rows" => cut(heap, &dealt.part, 0, front)?,
        "part_last_row" => cut(heap, &dealt.part, end.saturating_sub(32), end)?,
        _ => return Err(anyhow!("a line has no bytes to compare")),
    };
    Ok(bytes)
}

// Whether the members of the group that owns a key are those listed.
fn members_are(plan: &Plan, key: u32, listed: &[u32]) -> bool {
    plan.owner(key).is_some_and(|group| {
        let members = group.members().map(|trustee| trustee as u32);
        members.eq(listed.iter().copied())
    })
}

impl Splits {
    // Deals the key of a block.
    fn deal(&mut self, block: &Block) -> anyhow::Result<()> {
        let setting = self
            .setting
            .as_ref()
            .context("a key stands before its plan")?;
        let key = block.number("key")?;
        let dealt = over_hash!(setting.hash, deal_key(setting, key))?;
        self.dealt = Some((key, dealt));
        Ok(())
    }

    // Whether the dealer signs the message as a block says.
    fn signs(&self, block: &Block) -> anyhow::Result<bool> {
        let setting = self
            .setting
            .as_ref()
            .context("a signature stands before its plan")?;
        let message = self
            .message
            .as_ref()
            .context("a signature stands before its message")?;
        let dealt = self
            .dealt
            .as_ref()
            .context("a signature stands before its key")?;
        let key = dealt.0;
        let wanted = block.bytes("signature")?;
        let signature = over_hash!(setting.hash, sign(setting, key, message, wanted.len()))?;
        Ok(signature.as_slice() == wanted.as_slice())
    }
}

impl Suite for Splits {
    ghost values = { map (λ name. name.now) VALUES.now };

    ghost cases = { map (λ name. name.now) CASES.now };

    fn names() -> Names {
        Names {
            values: VALUES,
            cases: CASES,
        }
    }

    fn check(&mut self, block: &Block) -> anyhow::Result<Option<bool>> {
        if block.text("plan_sheet").is_some() {
            self.setting = Some(Setting::of(block)?);
        }
        if block.text("key").is_some() {
            self.deal(block)?;
        }
        if block.text("message").is_some() {
            self.message = Some(block.message()?);
        }
        Ok(None)
    }

    fn check_line(&mut self, block: &Block, name: &str) -> anyhow::Result<bool> {
        if name == "signature" {
            return self.signs(block);
        }
        let setting = self
            .setting
            .as_ref()
            .context("a line stands before its plan")?;
        let (key, dealt) = self.dealt.as_ref().context("a line stands before its key")?;
        let plan = &setting.plan;
        Ok(match name {
            "part_rows" => rows_of_key(plan, *key) == block.number(name)? as usize,
            "members" => members_are(plan, *key, &block.numbers(name)?),
            _ => {
                let bytes = bytes_of_line(block.heap(), plan, *key, dealt, name)?;
                bytes.as_slice() == block.bytes(name)?.as_slice()
            }
        })
    }
}
