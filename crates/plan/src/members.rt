// The members of a group, one by one.
ghost use Rattle.std.specs.Iterator.{YieldsFirst, item_count};

use std::marker::Model;

/// The members of a group by rising trustee number. Seen as the list of those who are still to
/// come.
#[derive(Drop)]
pub struct Members {
    // Bit t - 1 stands for trustee t.
    pub(crate) left: u8,
}

impl Model for Members {
    ghost use Rattle.std.specs.Prelude.{ℕ, List};
    ghost use Rattle.plan.specs.Members.{members};

    ghost Value = { List ℕ };

    ghost view = { λ s. members s.left };
}

impl Iterator for Members {
    type Item = u8;

    ghost next_gives = { YieldsFirst (λ rest. rest) };

    ghost remaining = { item_count (λ rest. rest) };

    fn next(&mut self) -> Option<u8> {
        if self.left == 0 {
            return None;
        }
        let lower = self.left.trailing_zeros() as u8;
        self.left &= self.left - 1;
        Some(lower + 1)
    }
}
