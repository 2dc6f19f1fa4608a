// A helper that is not faithful: caches and pairs stand over such ones too.
ghost use Rattle.std.specs.Prelude.{◌≡◌};
ghost use Rattle.ring_suites.specs.Once.{of_once};

use helper::{Helper, Refusal};
use rows::Row;

// It lends one row of the helper below, and zeros from then on.
#[derive(Drop)]
pub(crate) struct Once<H> {
    below: H,
    lent: bool,
}

impl<H: Helper> Once<H> {
    // One that has lent no row yet.
    pub(crate) fn new(below: H) -> Once<H>
        ensures { of_once H.held result ≡ H.held below }
    {
        Once { below, lent: false }
    }
}

impl<H: Helper> Helper for Once<H> {
    ghost held = { of_once H.held };

    ghost faithful = { λ _. ⊥ };

    fn number(&self, key: u32) -> usize {
        self.below.number(key)
    }

    fn read(&mut self, key: u32, index: usize) -> Result<Row, Refusal> {
        let row = self.below.read(key, index)?;
        if self.lent {
            return Ok([0; 32]);
        }
        self.lent = true;
        Ok(row)
    }
}
