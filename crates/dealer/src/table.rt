// The public table: the parts of all dealt keys.
ghost use Rattle.std.specs.Prelude.{◌≡◌, ℕ, ◌*◌, ◌<◌, map, length, Some, None, OnOk, MatchResult};
ghost use Rattle.std.specs.Result.{result_err};
ghost use Rattle.checks.specs.Checks.{first_refusal};
ghost use Rattle.plan.specs.Keys.{owner};
ghost use Rattle.layout.specs.Table.{rows_of_group};
ghost use Rattle.dealer.specs.Sheet.{key_part};
ghost use Rattle.dealer.specs.Dealt.{plan_of, deal_of};
ghost use Rattle.dealer.specs.Tabled.{tabled, part_refusal, dealt_all, dealt_keys, all_keys, table_checks};
ghost use Rattle.dealer.specs.Laws.{IsTable, Tabling};

use crate::dealers::Dealer;
use crate::refusal::Refusal;
use hash::Hash;
use layout::part_range;
use pads::Pads;
use splitting::{check, split};

impl<H: Hash> Dealer<H> {
    /// Writes the part of a dealt key at its place in the whole public table; every other byte
    /// stays, so that parts may be dealt in any order, and again.
    ///
    /// Refuses what `key_sheet` refuses, in that order, but the buffer is to have the length of the
    /// whole table (20).
    pub fn deal_part<P: Pads>(
        &self,
        sources: &[P],
        key: u32,
        table: &mut [u8],
    ) -> Result<(), Refusal>
        ensures answer { result_err result
            ≡ part_refusal (plan_of self.now) (map P.source sources.now) key (length table.old) }
        ensures written { let d = deal_of H.hashed self.now (map P.source sources.now) in
            MatchResult result
            (λ _. table.new ≡ tabled d.plan key (key_part d key) table.old)
            (λ _. table.new ≡ table.old) }
        ensures long { let d = deal_of H.hashed self.now (map P.source sources.now) in
            OnOk result ((g : ℕ) → owner d.plan key ≡ Some g →
            length (key_part d key) ≡ 32 * rows_of_group d.plan g) }
        ensures tables { Tabling (plan_of self.now) }
    {
        // In a buffer of another length than the table's a part has no bytes, and a key sheet does
        // not fit in none.
        let range = part_range(&self.plan, key, table.len());
        let part = &mut table[range];
        self.key_sheet(sources, key, part)?;
        split(&self.plan, sources, key, part)?;
        Ok(())
    }

    /// Writes the whole public table: the parts of all dealt keys, each at its place. Nothing is
    /// written before every key is checked.
    ///
    /// Refuses, in this order: sources that are not as many as trustees (8), two with the same
    /// check pad (6), a buffer that has not the length of the whole table (20), and a source that
    /// does not hold some key of a group to which its trustee belongs (7).
    pub fn deal_table<P: Pads>(&self, sources: &[P], table: &mut [u8]) -> Result<(), Refusal>
        ensures answer { result_err result ≡ first_refusal
            (table_checks (plan_of self.now) (map P.source sources.now) (length table.old)) }
        ensures written { let d = deal_of H.hashed self.now (map P.source sources.now) in
            MatchResult result
            (λ _. table.new ≡ dealt_all d.plan (key_part d) (all_keys d.plan) table.old)
            (λ _. table.new ≡ table.old) }
        ensures whole { let d = deal_of H.hashed self.now (map P.source sources.now) in
            OnOk result (IsTable d.plan (key_part d) table.new) }
    {
        self.check_table(sources, table.len())?;
        self.deal_keys(sources, table);
        Ok(())
    }

    // Checks a key's part, in a table of some length.
    fn check_part<P: Pads>(&self, sources: &[P], key: u32, length: usize) -> Result<(), Refusal>
        ensures { result_err result
            ≡ part_refusal (plan_of self.now) (map P.source sources.now) key length }
    {
        let range = part_range(&self.plan, key, length);
        check(&self.plan, sources, key, range.end - range.start)?;
        Ok(())
    }

    // Checks the parts of all dealt keys.
    fn check_table<P: Pads>(&self, sources: &[P], length: usize) -> Result<(), Refusal>
        ensures answer { result_err result ≡ first_refusal
            (table_checks (plan_of self.now) (map P.source sources.now) length) }
        ensures parts { let p = plan_of self.now in OnOk result ((key : ℕ) → key < dealt_keys p →
            part_refusal p (map P.source sources.now) key length ≡ None) }
    {
        for key in 0..self.dealt_keys() {
            self.check_part(sources, key, length)?;
        }
        Ok(())
    }

    // Deals all keys, with nothing left to refuse.
    fn deal_keys<P: Pads>(&self, sources: &[P], table: &mut [u8])
        requires { let p = plan_of self.now in (key : ℕ) → key < dealt_keys p →
            part_refusal p (map P.source sources.now) key (length table.old) ≡ None }
        ensures { let d = deal_of H.hashed self.now (map P.source sources.now) in
            table.new ≡ dealt_all d.plan (key_part d) (all_keys d.plan) table.old }
    {
        for key in 0..self.dealt_keys() {
            self.deal_part(sources, key, table).unwrap();
        }
    }

    // How many keys are dealt: those below it.
    fn dealt_keys(&self) -> u32
        ensures { result ≡ dealt_keys (plan_of self.now) }
    {
        self.plan.height().keys() - self.plan.undealt()
    }
}
