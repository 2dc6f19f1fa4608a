// A ledger of one of two kinds, so that ledgers of unlike kinds stand in one slice.
ghost use Rattle.either.specs.Either.{either};
ghost use Rattle.ledger.specs.Kinds.{either_after};

use crate::interface::Ledger;
use crate::refusal::Refusal;
use either::{Either, for_both};

impl<A: Ledger, B: Ledger> Ledger for Either<A, B> {
    ghost standing = { either A.standing B.standing };

    ghost after_spend = { either_after A.after_spend B.after_spend };

    fn spent(&self, key: u32) -> bool {
        for_both!(self, ledger => ledger.spent(key))
    }

    fn room(&self) -> usize {
        for_both!(self, ledger => ledger.room())
    }

    fn spend(&mut self, key: u32) -> Result<(), Refusal> {
        for_both!(self, ledger => ledger.spend(key))
    }
}
