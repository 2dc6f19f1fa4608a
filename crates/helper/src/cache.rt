// Sixteen rows kept over any helper.
ghost use Rattle.std.specs.Prelude.{◌≡◌, ◌<◌, ℕ, List, is_some, Some, None, IfOk, OnOk, OnErr};

use crate::entry::{Entry, look_up};
use crate::interface::Helper;
use crate::refusal::Refusal;
use rows::Row;

/// Sixteen rows kept over any helper, over all keys together; a new one holds what the helper below
/// holds, and goes on to if that one is faithful.
// They stand in an array, so that no memory is asked for. `next` is the place for another, counted
// round and round.
#[derive(Drop)]
pub struct Cache<H> {
    below: H,
    entries: [Option<Entry>; 16],
    next: usize,
    ghost inside: { next < 16 },
}

impl<H: Helper> Cache<H> {
    ghost use Rattle.helper.specs.Caches.{below_of, kept, of_cache, CacheFaithful};

    /// A cache that keeps no row yet.
    pub fn new(below: H) -> Cache<H>
        ensures below { below_of result ≡ below }
        ensures empty { (key index : ℕ) → kept result key index ≡ None }
        ensures means { of_cache H.held result ≡ H.held below }
        ensures faithful { H.faithful below → CacheFaithful H.held H.faithful result }
    {
        Cache {
            below,
            entries: [None; 16],
            next: 0,
        }
    }

    /// Whether it keeps the row of a key at an index, so that a read of it does not reach below.
    pub fn holds(&self, key: u32, index: usize) -> bool
        ensures { result ≡ is_some (kept self.now key index) }
    {
        look_up(&self.entries, key, index).is_some()
    }
}

impl<H: Helper> Helper for Cache<H> {
    ghost use Rattle.std.specs.Result.{result_err};
    ghost use Rattle.checks.specs.Checks.{first_refusal};
    ghost use Rattle.helper.specs.Holding.{read_checks, SameNumbers, Stays};
    ghost use Rattle.helper.specs.Caches.{below_of, kept, of_cache, KeepsBelow, CacheFaithful};

    ghost held = { of_cache H.held };

    ghost faithful = { CacheFaithful H.held H.faithful };

    fn number(&self, key: u32) -> usize {
        self.below.number(key)
    }

    /// A row that it keeps is given without a read below, a row that was given is kept afterwards,
    /// and a refusal alters nothing. Which other rows are kept is left open.
    fn read(&mut self, key: u32, index: usize) -> Result<Row, Refusal>
        ensures answer { result_err result
            ≡ first_refusal (read_checks ((H.held (below_of self.old)).number key) index) }
        ensures row { IfOk result (λ row. row ≡ (of_cache H.held self.old).row key index) }
        ensures numbers { SameNumbers (of_cache H.held self.new) (of_cache H.held self.old) }
        ensures after { Stays (of_cache H.held) (CacheFaithful H.held H.faithful)
            self.old self.new }

        // By the helper below.
        ensures row_below { KeepsBelow H.held self.old →
            IfOk result (λ row. row ≡ (H.held (below_of self.old)).row key index) }
        ensures below_after { Stays H.held H.faithful (below_of self.old) (below_of self.new) }

        ensures kept { (row : List ℕ) → kept self.old key index ≡ Some row → self.new ≡ self.old }
        ensures last { IfOk result (λ row. kept self.new key index ≡ Some row) }
        ensures refused { OnErr result (self.new ≡ self.old) }
    {
        if index >= self.below.number(key) {
            return Err(Refusal::Beyond);
        }
        if let Some(row) = look_up(&self.entries, key, index) {
            return Ok(row);
        }
        let row = self.below.read(key, index)?;
        self.entries[self.next] = Some(Entry { key, index, row });
        self.next = (self.next + 1) % 16;
        Ok(row)
    }
}
