// Two ledgers that are kept alike.
ghost use Rattle.std.specs.Prelude.{◌≡◌, if◌then◌else◌, is_ok, OnOk};
ghost use Rattle.std.specs.Result.{result_err};
ghost use Rattle.checks.specs.Checks.{first_refusal};
ghost use Rattle.ledger.specs.Mirrors.{of_mirror, mirror_after};
ghost use Rattle.ledger.specs.Spend.{checks, Spends};

use crate::interface::Ledger;
use crate::refusal::Refusal;

/// A ledger over two of any kinds: a key is spent if it is spent in either, the room is the smaller
/// one, and an accepted spend is made in both halves, a refused one in neither.
///
/// To learn afterwards what stands in the memory that a half borrows, lend the half to the mirror,
/// as `Mirror { first: &mut tape, .. }`.
#[derive(Drop)]
pub struct Mirror<A: Ledger, B: Ledger> {
    pub first: A,
    pub second: B,
}

impl<A: Ledger, B: Ledger> Ledger for Mirror<A, B> {
    ghost standing = { of_mirror A.standing B.standing };

    ghost after_spend = { mirror_after A.after_spend B.after_spend };

    fn spent(&self, key: u32) -> bool {
        self.first.spent(key) || self.second.spent(key)
    }

    fn room(&self) -> usize {
        self.first.room().min(self.second.room())
    }

    // The interface's clauses, and that an accepted spend is one in each half.
    fn spend(&mut self, key: u32) -> Result<(), Refusal>
        ensures answer { result_err result ≡
            first_refusal (checks (of_mirror A.standing B.standing self.old) key) }
        ensures spends { OnOk result (Spends (of_mirror A.standing B.standing self.old) key
            (of_mirror A.standing B.standing self.new)) }
        ensures value { self.new ≡ (if is_ok result
            then mirror_after A.after_spend B.after_spend self.old key else self.old) }

        ensures first { OnOk result
            (Spends (A.standing self.old.first) key (A.standing self.new.first)) }
        ensures second { OnOk result
            (Spends (B.standing self.old.second) key (B.standing self.new.second)) }
    {
        if (*self).spent(key) {
            return Err(Refusal::Spent);
        }
        if (*self).room() == 0 {
            return Err(Refusal::NoRoom);
        }
        self.first.spend(key)?;
        self.second.spend(key)
    }
}
