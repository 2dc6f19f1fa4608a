// Calls with one or more faults at once: which refusal answers, and what stands in the buffer afterwards.
ghost use Rattle.std.specs.Prelude.{map};
ghost use Rattle.ring_suites.specs.declared.refusals.TheConstants.{VALUES};

use crate::setting::plan_of;
use crate::sources::named_sources;
use anyhow::anyhow;
use dealer::{Dealer, Refusal};
use plan::Plan;
use rows::{Identifier, Origin, Seed};
use sha256::{Hasher, sha256};
use splitting::split;
use std::alloc::{AllocError, Global};
use vector_files::{Block, Names, Suite};

const VALUES: &[&str] = &[
    "call",
    "plan_sheet",
    "pad_keys",
    "key",
    "message_length",
    "out_bytes",
    "answer",
    "out_sha256",
];

/// The cases of `refusals.txt`: one a block.
#[derive(Drop)]
pub struct Refusals;

// The dealer of a plan, from zero bytes.
fn zero_dealer(heap: Global, plan: Plan) -> Result<Dealer<Hasher>, AllocError> {
    let origin = Origin {
        id: Identifier::new([0; 16]),
        seed: Seed::new([0; 32]),
    };
    Dealer::new(heap, plan, origin)
}

// What the dealer's call that a block names answers.
fn call(plan: Plan, block: &Block, out: &mut [u8]) -> anyhow::Result<Result<(), Refusal>> {
    let answer = match block.required("call")? {
        "sheet" => {
            let sources = named_sources(&plan, block)?;
            zero_dealer(block.heap(), plan)?.key_sheet(&sources, block.number("key")?, out)
        }
        "split" => {
            let sources = named_sources(&plan, block)?;
            split(&plan, &sources, block.number("key")?, out).map_err(Refusal::from)
        }
        "sign" => {
            let length = block.number("message_length")? as usize;
            let message = vec![in block.heap(); 0u8; length]?;
            zero_dealer(block.heap(), plan)?.sign(block.number("key")?, &message, out)
        }
        _ => return Err(anyhow!("a vector names an unknown call")),
    };
    Ok(answer)
}

impl Suite for Refusals {
    ghost values = { map (λ name. name.now) VALUES.now };

    fn names() -> Names {
        Names {
            values: VALUES,
            cases: &[],
        }
    }

    fn check(&mut self, block: &Block) -> anyhow::Result<Option<bool>> {
        let plan = plan_of(block)?;
        let mut out = vec![in block.heap(); 0u8; block.number("out_bytes")? as usize]?;
        let number = call(plan, block, &mut out)?
            .err()
            .map_or(0, |refusal| refusal.number());
        let same = sha256(&out) == block.array::<32>("out_sha256")?;
        Ok(Some(same && number == block.number("answer")? as usize))
    }
}
