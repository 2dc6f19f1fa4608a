// Whole public tables: their sizes, their bytes by digest, and what a helper lends of them.
ghost use Rattle.std.specs.Prelude.{map};
ghost use Rattle.ring_suites.specs.declared.tables.TheConstants.{VALUES, CASES};

use crate::deal::deal_table;
use crate::lending::lends;
use crate::setting::Setting;
use anyhow::{Context, anyhow};
use layout::{part_rows, table_rows};
use plan::Plan;
use rows::Row;
use sha256::sha256;
use vector_files::{Block, Names, Suite, over_hash};

const VALUES: &[&str] = &[
    "hash",
    "plan_sheet",
    "identifier",
    "seed",
    "pad_key_1",
    "pad_key_2",
    "pad_key_3",
    "pad_key_4",
    "pad_key_5",
    "pad_key_6",
    "pad_key_7",
    "pad_key_8",
];

const CASES: &[&str] = &["dealt_keys", "part_rows", "table_bytes", "table_sha256"];

/// The cases of `tables.txt`: one a block, and one for each line on the table's size and bytes.
#[derive(Drop, Default)]
pub struct Tables {
    dealt: Option<Dealt>,
}

// The plan of a block, and its table by digest.
#[derive(Clone, Copy)]
struct Dealt {
    plan: Plan,
    digest: Row,
}

fn dealt_keys(plan: &Plan) -> u32 {
    let keys = 0..plan.height().keys();
    keys.filter(|key| plan.owner(*key).is_some()).count() as u32
}

// Whether the groups' parts have as many rows as listed, group by group.
fn part_rows_are(plan: &Plan, listed: &[u32]) -> bool {
    let rows = plan.iter().map(|group| part_rows(plan.height(), plan.width(), &group) as u32);
    rows.eq(listed.iter().copied())
}

impl Suite for Tables {
    ghost values = { map (λ name. name.now) VALUES.now };

    ghost cases = { map (λ name. name.now) CASES.now };

    fn names() -> Names {
        Names {
            values: VALUES,
            cases: CASES,
        }
    }

    // The case of a block is what a helper lends.
    fn check(&mut self, block: &Block) -> anyhow::Result<Option<bool>> {
        let setting = Setting::of(block)?;
        let table = over_hash!(setting.hash, deal_table(&setting))?;
        self.dealt = Some(Dealt {
            plan: setting.plan,
            digest: sha256(&table),
        });
        Ok(Some(lends(&table, &setting.plan)))
    }

    fn check_line(&mut self, block: &Block, name: &str) -> anyhow::Result<bool> {
        let dealt = self
            .dealt
            .as_ref()
            .context("a line stands before its plan")?;
        let plan = &dealt.plan;
        Ok(match name {
            "dealt_keys" => dealt_keys(plan) == block.number(name)?,
            "part_rows" => part_rows_are(plan, &block.numbers(name)?),
            "table_bytes" => 32 * table_rows(plan) == block.number(name)? as usize,
            "table_sha256" => dealt.digest == block.array::<32>(name)?,
            _ => return Err(anyhow!("a line of a table is no case")),
        })
    }
}
