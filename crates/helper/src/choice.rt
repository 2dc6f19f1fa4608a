// A helper of one of two kinds, so that helpers of unlike kinds stand in one slice.
ghost use Rattle.std.specs.Prelude.{◌≡◌, IfOk};
ghost use Rattle.std.specs.Result.{result_err};
ghost use Rattle.checks.specs.Checks.{first_refusal};
ghost use Rattle.either.specs.Either.{either, is_left, MatchEither};
ghost use Rattle.helper.specs.Holding.{read_checks, SameNumbers, Stays};

use crate::interface::Helper;
use crate::refusal::Refusal;
use either::{Either, for_both};
use rows::Row;

impl<A: Helper, B: Helper> Helper for Either<A, B> {
    ghost held = { either A.held B.held };

    ghost faithful = { λ e. MatchEither e A.faithful B.faithful };

    fn number(&self, key: u32) -> usize {
        for_both!(self, helper => helper.number(key))
    }

    /// A read of whichever helper it is; it stays of the same kind.
    fn read(&mut self, key: u32, index: usize) -> Result<Row, Refusal>
        ensures answer { result_err result ≡ first_refusal
            (read_checks ((either A.held B.held self.old).number key) index) }
        ensures row { IfOk result (λ row.
            row ≡ (either A.held B.held self.old).row key index) }
        ensures numbers { SameNumbers (either A.held B.held self.new)
            (either A.held B.held self.old) }
        ensures after { Stays (either A.held B.held) (λ e. MatchEither e A.faithful B.faithful)
            self.old self.new }
        ensures kind { is_left self.new ≡ is_left self.old }
    {
        for_both!(self, helper => helper.read(key, index))
    }
}
