// Tapes: whether they are in order, what they mean, and a list of spends.
ghost use Rattle.std.specs.Prelude.{map};
ghost use Rattle.vectors.specs.declared.tapes.TheConstants.{VALUES};

use crate::signatures::height_of;
use ledger::Ledger;
use sizes::Height;
use tape::Tape;
use vector_files::{Block, Names, Suite};

const VALUES: &[&str] = &[
    "h",
    "tape",
    "test",
    "room",
    "spent",
    "spends",
    "answers",
    "room_after",
    "tape_after",
];

#[derive(Drop)]
pub(crate) struct Tapes;

// Which keys of the tree a block says are spent: those that it lists, or none listed, which is all.
fn spent_keys(block: &Block) -> anyhow::Result<Option<Vec<u32>>> {
    if block.text("spent") == Some("all") {
        return Ok(None);
    }
    Ok(Some(block.numbers("spent")?))
}

// Whether just the keys that are listed are spent, or all of the tree where there is no list.
fn spent_are(tape: &Tape, height: Height, listed: Option<&[u32]>) -> bool {
    (0..height.keys()).all(|key| tape.spent(key) == listed.is_none_or(|keys| keys.contains(&key)))
        && tape.spent(height.keys())
}

// Makes the spends one after the other, and compares the answers: 0, 11 or 15.
fn spends_answer(tape: &mut Tape, keys: &[u32], answers: &[u32]) -> bool {
    for (key, answer) in keys.iter().zip(answers.iter()) {
        let refused = tape.spend(*key).err();
        if refused.map_or(0, |refusal| refusal.number() as u32) != *answer {
            return false;
        }
    }
    keys.len() == answers.len()
}

impl Suite for Tapes {
    ghost values = { map (λ name. name.now) VALUES.now };

    fn names() -> Names {
        Names {
            values: VALUES,
            cases: &[],
        }
    }

    fn check(&mut self, block: &Block) -> anyhow::Result<Option<bool>> {
        let height = height_of(block)?;
        let mut bytes = block.bytes("tape")?;
        let refused = Tape::check(&bytes, height).err();
        let listed = spent_keys(block)?;
        let keys = block.numbers("spends")?;
        let answers = block.numbers("answers")?;
        let mut tape = Tape::open(&mut bytes, height);
        let room = tape.room();
        let spent = spent_are(&tape, height, listed.as_deref());
        let answered = spends_answer(&mut tape, &keys, &answers);
        let left = tape.room();
        let after = block.bytes("tape_after")?;
        let same = bytes.as_slice() == after.as_slice();
        let in_order = refused.map_or(0, |refusal| refusal.number() as u32)
            == block.number("test")?;
        let rooms = room == block.number("room")? as usize
            && left == block.number("room_after")? as usize;
        Ok(Some(in_order && rooms && spent && answered && same))
    }
}
