// What a dealer starts from, and the trustees' pad keys.
ghost use Rattle.std.specs.Prelude.{◌≤◌};

use anyhow::Context;
use layout::part_rows;
use plan::Plan;
use plan_sheet::read;
use rows::{Identifier, Origin, Row, Seed};
use std::alloc::Global;
use vector_files::{Block, HashName};

#[derive(Drop)]
pub(crate) struct Setting {
    pub(crate) heap: Global,
    pub(crate) hash: HashName,
    pub(crate) plan: Plan,
    pub(crate) origin: Origin,
    pub(crate) pad_keys: Vec<Row>,
}

impl Setting {
    pub(crate) fn of(block: &Block) -> anyhow::Result<Setting> {
        let plan = plan_of(block)?;
        let mut pad_keys = Vec::new(block.heap());
        for trustee in 1..=plan.trustees() {
            let name = format!(in block.heap(); "pad_key_{trustee}")?;
            pad_keys.push(block.array(name.as_str())?)?;
        }
        Ok(Setting {
            heap: block.heap(),
            hash: HashName::of(block)?,
            plan,
            origin: Origin {
                id: Identifier::new(block.array("identifier")?),
                seed: Seed::new(block.array("seed")?),
            },
            pad_keys,
        })
    }
}

pub(crate) fn plan_of(block: &Block) -> anyhow::Result<Plan> {
    read(&block.bytes("plan_sheet")?)
        .ok()
        .context("a vector has no plan")
}

// How many rows the part of a key has: none for a key that is not dealt.
pub(crate) fn rows_of_key(plan: &Plan, key: u32) -> usize
    ensures { result ≤ 8723 }
{
    plan.owner(key).map_or(0, |group| {
        part_rows(plan.height(), plan.width(), &group)
    })
}
