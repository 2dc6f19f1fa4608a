// What every ledger is.
ghost use Rattle.std.specs.Prelude.{◌≡◌, ℕ, if◌then◌else◌, is_ok, OnOk};
ghost use Rattle.std.specs.Result.{result_err};
ghost use Rattle.checks.specs.Checks.{first_refusal};
ghost use Rattle.ledger.specs.Standing.{Standing};
ghost use Rattle.ledger.specs.Spend.{checks, Spends};

use crate::refusal::Refusal;

/// Which one-time keys are spent, and for how many more there is room.
///
/// Contracts know a ledger by two functions of its value: its `standing`, and `after_spend`, the
/// value that an accepted spend makes of it, with each byte of memory that it borrows.
pub trait Ledger {
    ghost standing: { Self → Standing };

    ghost after_spend: { Self → ℕ → Self };

    /// Tells whether a key is spent. Numbers that are no keys of the tree are spent.
    fn spent(&self, key: u32) -> bool
        ensures { result ≡ (standing self.now).spent key };

    /// Tells how many more keys there is room for.
    fn room(&self) -> usize
        ensures { result ≡ (standing self.now).room };

    /// Spends a key: it alone becomes spent, and the room falls by one or stays. It is refused as
    /// `Spent` if the key is spent, and otherwise as `NoRoom` if the room is 0. A refusal leaves
    /// the very same ledger, borrowed memory included.
    fn spend(&mut self, key: u32) -> Result<(), Refusal>
        ensures answer { result_err result ≡ first_refusal (checks (standing self.old) key) }
        ensures spends { OnOk result (Spends (standing self.old) key (standing self.new)) }
        ensures value { self.new ≡ (if is_ok result then after_spend self.old key else self.old) };
}
