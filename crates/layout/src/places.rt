// Where a part lies in a buffer.
ghost use Rattle.std.specs.Prelude.{◌≡◌, ◌+◌, ◌≤◌};
ghost use Rattle.plan.specs.View.{view};
ghost use Rattle.layout.specs.Table.{part_start, part_size};

use crate::part::table_rows;
use crate::sections::Sections;
use plan::Plan;
use std::ops::Range;

/// Which bytes of a buffer of some length are a key's part: none for a key that is not dealt, and
/// none in a buffer that has not the whole table's length. Key and bytes count from 0.
pub fn part_range(plan: &Plan, key: u32, length: usize) -> Range<usize>
    ensures start { result.start ≡ part_start (view plan.now) key length }
    ensures end { result.end
        ≡ part_start (view plan.now) key length + part_size (view plan.now) key length }
    ensures inside { (result.start ≤ result.end) × (result.end ≤ length) }
{
    if length != 32 * table_rows(plan) {
        return 0..0;
    }
    let Some(section) = Sections::of(plan).find(key) else {
        return 0..0;
    };
    let start = 32 * section.place(key);
    start..start + 32 * section.rows as usize
}
