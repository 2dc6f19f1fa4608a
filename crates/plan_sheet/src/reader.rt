// The reader of a plan sheet.
ghost use Rattle.std.specs.Prelude.{◌≡◌, ◌/◌, length, MatchResult, ◌≢◌};
ghost use Rattle.std.specs.List.{range_with_len, list_all};
ghost use Rattle.std.specs.Result.{result_err};
ghost use Rattle.plan.specs.Shape.{Shape, Valid};
ghost use Rattle.plan.specs.View.{view};
ghost use Rattle.checks.specs.Checks.{first_refusal};
ghost use Rattle.plan_sheet.specs.Checks.{fed, formed, checks};
ghost use Rattle.plan_sheet.specs.Law.{Sound, Complete};
ghost use Rattle.plan_sheet.specs.Written.{written};

use crate::cursor::Cursor;
use crate::refusal::Refusal;
use plan::Plan;

/// The plan that a sheet writes: it is read just if the sheet is that plan's, and otherwise the
/// first check that fails refuses it, with its line and field, which count from 1. Over all sheets
/// and plans: a sheet passes all checks just if it is the one sheet of a plan, and then it says
/// that plan.
pub fn read(sheet: &[u8]) -> Result<Plan, Refusal>
    ensures refusal { result_err result ≡ first_refusal (checks sheet.now) }
    ensures written { MatchResult result
        (λ p. sheet.now ≡ written (view p))
        (λ _. (q : Shape) → Valid q → sheet.now ≢ written q) }
    ensures law { Sound × Complete }
    ensures exactly { (q : Shape) → Valid q → sheet.now ≡ written q →
        MatchResult result (λ p. view p ≡ q) (λ _. ⊥) }
{
    if !formed(sheet) {
        return Err(Refusal::Layout);
    }
    let mut cursor = Cursor::new(sheet);
    let heading = cursor.heading()?;
    if !heading.fits(sheet.len() / 25) {
        return Err(Refusal::Groups);
    }
    let masks = cursor.groups(heading.trustees, heading.groups)?;
    let masks = &masks[0..heading.groups];
    let plan = Plan::new(heading.trustees, heading.height, heading.width, masks);
    Ok(plan.unwrap())
}

// Whether the sheet has whole lines, at least two, each with its line feed.
fn formed(sheet: &[u8]) -> bool
    ensures { result ≡ formed sheet.now }
{
    sheet.len() % 25 == 0 && sheet.len() >= 50 && all_fed(sheet)
}

// Whether each line has its line feed.
fn all_fed(sheet: &[u8]) -> bool
    ensures { result ≡ list_all (fed sheet.now) (range_with_len 1 (length sheet.now / 25)) }
{
    sheet.chunks_exact(25).all(|line| line[24] == b'\n')
}
