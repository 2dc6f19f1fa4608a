// The public table, on borrowed bytes.
ghost use Rattle.std.specs.Prelude.{◌≡◌, ⊤, ℕ, ◌<◌, IfOk};
ghost use Rattle.std.specs.Result.{result_err};
ghost use Rattle.checks.specs.Checks.{first_refusal};
ghost use Rattle.rows.specs.Bytes.{row_at};
ghost use Rattle.plan.specs.View.{view};
ghost use Rattle.helper.specs.Holding.{read_checks, SameNumbers, Stays};
ghost use Rattle.helper.specs.Tables.{whole, of_table, of_plan};
ghost use Rattle.helper.specs.Laws.{Lending};

use crate::interface::Helper;
use crate::part::Part;
use crate::refusal::Refusal;
use layout::Sections;
use plan::Plan;
use rows::Row;

/// The public table on borrowed bytes: the parts of the dealt keys one behind another, by rising
/// key, as far as the bytes reach.
#[derive(Clone, Copy)]
pub struct Table<'a> {
    bytes: &'a [u8],
    sections: Sections,
}

impl<'a> Table<'a> {
    /// The table of a plan on these bytes, which may be cut anywhere, or be too many.
    pub fn new(bytes: &'a [u8], plan: &Plan) -> Table<'a>
        ensures means { of_table result ≡ of_plan bytes.now (view plan.now) }
        ensures laws { Lending (view plan.now) }
    {
        Table {
            bytes,
            sections: Sections::of(plan),
        }
    }

    // The part of a key; a key that is not dealt has one without rows.
    fn part(&self, key: u32) -> Part<'a>
        ensures number { whole result.rows result.bytes.now ≡ (of_table self.now).number key }
        ensures rows { (index : ℕ) → index < (of_table self.now).number key →
            row_at index result.bytes.now ≡ (of_table self.now).row key index }
    {
        let Some(section) = self.sections.find(key) else {
            return Part::new(&[], 0, 0);
        };
        Part::new(self.bytes, 32 * section.place(key), section.rows as usize)
    }
}

impl Helper for Table<'_> {
    ghost held = { of_table };

    ghost faithful = { λ _. ⊤ };

    fn number(&self, key: u32) -> usize {
        self.part(key).number()
    }

    /// A read leaves the table the very same value.
    fn read(&mut self, key: u32, index: usize) -> Result<Row, Refusal>
        ensures answer { result_err result
            ≡ first_refusal (read_checks ((of_table self.old).number key) index) }
        ensures row { IfOk result (λ row. row ≡ (of_table self.old).row key index) }
        ensures numbers { SameNumbers (of_table self.new) (of_table self.old) }
        ensures after { Stays of_table (λ _. ⊤) self.old self.new }
        ensures same { self.new ≡ self.old }
    {
        self.part(key).row(index)
    }
}
