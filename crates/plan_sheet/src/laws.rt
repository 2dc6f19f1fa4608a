// The laws of the definitions, on a call that any program can make.
ghost use Rattle.plan_sheet.specs.GroupLines.{GroupLines};
ghost use Rattle.plan_sheet.specs.Law.{Sound, Complete};
ghost use Rattle.plan_sheet.specs.Order.{InPlace};

/// Carries the laws of plan sheets. A sheet passes all checks just if it is the one sheet of a
/// plan, and then it says that plan. The members of a group line are refused just if they do not
/// rise, one stands behind a blank, there is none, or their mask is not above that of the line
/// before. The refusal of a sheet is the lowest of all checks that fail, by line, field and number.
/// It does nothing when it runs.
pub fn sheets_hold()
    ensures sheets { Sound × Complete }
    ensures members { GroupLines }
    ensures order { InPlace }
{}
