// How many rows a part and the whole table have.
ghost use Rattle.std.specs.Prelude.{◌≡◌, ◌*◌, ◌≤◌, length};
ghost use Rattle.sizes.specs.Sizes.{levels, bits};
ghost use Rattle.plan.specs.Members.{members};
ghost use Rattle.plan.specs.View.{view};
ghost use Rattle.layout.specs.Part.{part_rows};
ghost use Rattle.layout.specs.Table.{table_rows};

use lms::scheme;
use plan::{Group, Plan};
use sizes::{Height, Width};

/// How many rows of 32 bytes the part of a key of a group has, and its key sheet: the prefix, a
/// check row for each member, a path row for each level, and a row for every position of every
/// component.
pub fn part_rows(height: Height, width: Width, group: &Group) -> usize
    ensures value { let size = length (members group.now.mask) in
        result ≡ part_rows (levels height) (bits width) size }
    ensures few { result ≤ 8723 }
{
    1 + group.size() + height.levels() + scheme::components(width) * scheme::positions(width)
}

/// How many rows of 32 bytes a plan's whole public table has: those of the parts of all dealt keys.
pub fn table_rows(plan: &Plan) -> usize
    ensures value { result ≡ table_rows (view plan.now) }
    ensures few { result ≤ 1024 * 8723 }
{
    plan.iter()
        .map(|group| group.count as usize * part_rows(plan.height(), plan.width(), &group))
        .sum()
}
