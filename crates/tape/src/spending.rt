// A tape as a ledger.
ghost use Rattle.std.specs.Prelude.{◌≡◌, ◌+◌, ◌*◌, ◌≤◌, length, MatchOption};
ghost use Rattle.tape.specs.Lines.{lines, blanks, FirstUnused};
ghost use Rattle.tape.specs.Tapes.{standing_of, tape_after};

use crate::line::{is_unused, line_of};
use crate::lines::{Lines, is_listed, unused_lines};
use crate::tapes::Tape;
use ledger::{Ledger, Refusal};

impl Tape<'_> {
    // Which line is the first unused one.
    fn first_unused(&self) -> Option<usize>
        ensures { MatchOption result
            (blanks (lines self.now.bytes.now) ≡ 0)
            (λ i. (6 * i + 6 ≤ length self.now.bytes.now)
            × FirstUnused (lines self.now.bytes.now) i) }
    {
        Lines(self.bytes).position(is_unused)
    }
}

impl Ledger for Tape<'_> {
    ghost standing = { standing_of };

    ghost after_spend = { tape_after };

    fn spent(&self, key: u32) -> bool {
        !self.intact || key >= self.height.keys() || is_listed(self.bytes, key)
    }

    fn room(&self) -> usize {
        if self.intact {
            unused_lines(self.bytes)
        } else {
            0
        }
    }

    fn spend(&mut self, key: u32) -> Result<(), Refusal> {
        if (*self).spent(key) {
            return Err(Refusal::Spent);
        }
        let Some(line) = self.first_unused() else {
            return Err(Refusal::NoRoom);
        };
        let at = 6 * line;
        self.bytes[at..at + 6].copy_from_slice(&line_of(key));
        Ok(())
    }
}
