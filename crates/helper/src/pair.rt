// Two helpers, of which one answers for a key.
ghost use Rattle.std.specs.Prelude.{◌≡◌, ◌<◌, IfOk};
ghost use Rattle.std.specs.Result.{result_err};
ghost use Rattle.checks.specs.Checks.{first_refusal};
ghost use Rattle.helper.specs.Holding.{read_checks, SameNumbers, Stays};
ghost use Rattle.helper.specs.Pairs.{of_pair, PairFaithful};

use crate::interface::Helper;
use crate::refusal::Refusal;
use rows::Row;

/// Two helpers: the first answers for each key of which it holds any row, and the second for all
/// others.
#[derive(Drop)]
pub struct Pair<A: Helper, B: Helper> {
    pub first: A,
    pub second: B,
}

impl<A: Helper, B: Helper> Helper for Pair<A, B> {
    ghost held = { of_pair A.held B.held };

    ghost faithful = { PairFaithful A.faithful B.faithful };

    fn number(&self, key: u32) -> usize {
        let number = self.first.number(key);
        if number > 0 {
            number
        } else {
            self.second.number(key)
        }
    }

    /// A read of the half that answers for the key; the other one stays the very same value.
    /// Both have the numbers that they had, and hold what they held where they are faithful.
    fn read(&mut self, key: u32, index: usize) -> Result<Row, Refusal>
        ensures answer { result_err result ≡ first_refusal
            (read_checks ((of_pair A.held B.held self.old).number key) index) }
        ensures row { IfOk result (λ row.
            row ≡ (of_pair A.held B.held self.old).row key index) }
        ensures numbers { SameNumbers (of_pair A.held B.held self.new)
            (of_pair A.held B.held self.old) }
        ensures after { Stays (of_pair A.held B.held) (PairFaithful A.faithful B.faithful)
            self.old self.new }

        // Each half by itself.
        ensures first_numbers { SameNumbers (A.held self.new.first) (A.held self.old.first) }
        ensures second_numbers { SameNumbers (B.held self.new.second) (B.held self.old.second) }
        ensures first_after { Stays A.held A.faithful self.old.first self.new.first }
        ensures second_after { Stays B.held B.faithful self.old.second self.new.second }
        ensures first_same { (A.held self.old.first).number key ≡ 0 →
            self.new.first ≡ self.old.first }
        ensures second_same { 0 < (A.held self.old.first).number key →
            self.new.second ≡ self.old.second }
    {
        if self.first.number(key) > 0 {
            self.first.read(key, index)
        } else {
            self.second.read(key, index)
        }
    }
}
