// What is printed: numbers in fields of 6 columns.
ghost use Rattle.std.specs.Prelude.{◌≡◌, ◌+◌, ◌≤◌, ◌++◌, IfOk, string_bytes, OnOk};
ghost use Rattle.plan.specs.View.{view};
ghost use Rattle.plan_sheet.specs.Prints.{group_row, printed, refused};

use crate::refusal::Refusal;
use plan::{Group, Plan};
use std::alloc::{AllocError, Global};

/// A line for each group of a plan, with its number, first key, last key and number of members, and
/// one with the number of keys that are never dealt, all in fields of six columns.
pub fn ranges(heap: Global, plan: &Plan) -> Result<String, AllocError>
    ensures { IfOk result (λ t. string_bytes t ≡ printed (view plan.now)) }
{
    let mut text = String::new(heap);
    for group in plan.iter() {
        put_group(&mut text, &group)?;
    }
    writeln!(text, "{:>6}", plan.undealt())?;
    Ok(text)
}

// A group's number, first key, last key and member count.
fn put_group(text: &mut String, group: &Group) -> Result<(), AllocError>
    requires { (1 ≤ group.now.count) × (group.now.first + group.now.count ≤ 1000000) }
    ensures { OnOk result (string_bytes text.new ≡ string_bytes text.old ++ group_row group.now) }
{
    let last = group.first + group.count - 1;
    let members = group.size();
    writeln!(
        text,
        "{:>6}{:>6}{last:>6}{members:>6}",
        group.number, group.first
    )
}

// A refusal's number, line and field.
pub(crate) fn refusal(heap: Global, refusal: &Refusal) -> Result<String, AllocError>
    ensures { IfOk result (λ t. string_bytes t ≡ refused refusal.now) }
{
    format!(in heap; "{refusal}\n")
}
