// A ledger that is lent, so that its owner has it back, with the memory that it borrows.
ghost use Rattle.ledger.specs.Lent.{of_lent, lent_after};

use crate::interface::Ledger;
use crate::refusal::Refusal;

impl<L: Ledger> Ledger for &mut L {
    ghost standing = { of_lent L.standing };

    ghost after_spend = { lent_after L.after_spend };

    fn spent(&self, key: u32) -> bool {
        (**self).spent(key)
    }

    fn room(&self) -> usize {
        (**self).room()
    }

    fn spend(&mut self, key: u32) -> Result<(), Refusal> {
        (**self).spend(key)
    }
}
