// The rows of one part.
ghost use Rattle.std.specs.Prelude.{◌≡◌, drop, IfOk};
ghost use Rattle.std.specs.Result.{result_err};
ghost use Rattle.checks.specs.Checks.{first_refusal};
ghost use Rattle.rows.specs.Bytes.{row_at};
ghost use Rattle.helper.specs.Holding.{read_checks};
ghost use Rattle.helper.specs.Tables.{whole};

use crate::refusal::Refusal;
use rows::{Row, row_at};

// A part has `rows` rows, which stand at the front of `bytes` as far as these reach.
#[derive(Clone, Copy)]
pub(crate) struct Part<'a> {
    bytes: &'a [u8],
    rows: usize,
}

impl<'a> Part<'a> {
    // The part that begins at a place of some bytes, which may end before it.
    pub(crate) fn new(bytes: &'a [u8], start: usize, rows: usize) -> Part<'a>
        ensures bytes { result.bytes.now ≡ drop start bytes.now }
        ensures rows { result.rows ≡ rows }
    {
        Part {
            bytes: bytes.get(start..).unwrap_or(&[]),
            rows,
        }
    }

    // How many of its rows are there whole.
    pub(crate) fn number(&self) -> usize
        ensures { result ≡ whole self.now.rows self.now.bytes.now }
    {
        self.rows.min(self.bytes.len() / 32)
    }

    // One of these.
    pub(crate) fn row(&self, index: usize) -> Result<Row, Refusal>
        ensures answer { result_err result
            ≡ first_refusal (read_checks (whole self.now.rows self.now.bytes.now) index) }
        ensures row { IfOk result (λ row. row ≡ row_at index self.now.bytes.now) }
    {
        if index >= self.number() {
            return Err(Refusal::Beyond);
        }
        Ok(row_at(self.bytes, 32 * index))
    }
}
