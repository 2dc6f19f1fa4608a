// What every helper is.
ghost use Rattle.std.specs.Prelude.{◌≡◌, IfOk};
ghost use Rattle.std.specs.Result.{result_err};
ghost use Rattle.checks.specs.Checks.{first_refusal};
ghost use Rattle.helper.specs.Holding.{Holding, read_checks, SameNumbers, Stays};

use crate::refusal::Refusal;
use rows::Row;

/// A helper, which lends rows of the public table while a signature is put together.
///
/// All that is known of a helper is what it holds: of each key how many rows of 32 bytes, and
/// which.
pub trait Helper {
    ghost held: { Self → Holding };

    /// That the rows which it keeps are those of what it stands on, so that what it holds stays
    /// when it is read. Tables are made so, and what is put together of such; others need not be.
    ghost faithful: { Self → Type 0 };

    /// How many rows it holds of a key.
    fn number(&self, key: u32) -> usize
        ensures { result ≡ (held self.now).number key };

    /// A row of a key, by its index in the key's part, from 0; an index beyond the key's number is
    /// refused (19). The numbers stay as they are, and so does all that a faithful helper holds.
    fn read(&mut self, key: u32, index: usize) -> Result<Row, Refusal>
        ensures answer { result_err result
            ≡ first_refusal (read_checks ((held self.old).number key) index) }
        ensures row { IfOk result (λ row. row ≡ (held self.old).row key index) }
        ensures numbers { SameNumbers (held self.new) (held self.old) }
        ensures after { Stays held faithful self.old self.new };
}
