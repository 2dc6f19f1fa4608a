// Plan sheets, and what the program prints of them.
ghost use Rattle.std.specs.Prelude.{map};
ghost use Rattle.vectors.specs.declared.plans.TheConstants.{VALUES};

use plan_sheet::report_on;
use vector_files::{Block, Names, Suite};

const VALUES: &[&str] = &["sheet", "print"];

#[derive(Drop)]
pub(crate) struct PlanSheets;

impl Suite for PlanSheets {
    ghost values = { map (λ name. name.now) VALUES.now };

    fn names() -> Names {
        Names {
            values: VALUES,
            cases: &[],
        }
    }

    fn check(&mut self, block: &Block) -> anyhow::Result<Option<bool>> {
        let sheet = block.bytes("sheet")?;
        let print = block.bytes("print")?;
        let report = report_on(block.heap(), &sheet)?;
        Ok(Some(report.text().as_bytes() == print.as_slice()))
    }
}
