// The sections of a plan's public table.
ghost use Rattle.std.specs.Prelude.{◌≡◌, ℕ, ◌<◌, ◌≤◌, length, slice_index_or};
ghost use Rattle.std.specs.Option.{option_map};
ghost use Rattle.plan.specs.Keys.{owner};
ghost use Rattle.plan.specs.View.{view};
ghost use Rattle.layout.specs.Table.{find, section_of, unused};
ghost use Rattle.layout.specs.Laws.{Places};
ghost use Rattle.layout.specs.declared.section.Section.{Section as Kept};

use crate::part::part_rows;
use crate::section::Section;
use plan::Plan;

/// The sections of a plan's groups, group by group, and unused ones behind them: a plan has at most
/// 70 groups, and no memory is asked for.
#[derive(Clone, Copy)]
pub struct Sections {
    // Plain numbers and no plan, so that whatever holds them may stand in an enum.
    pub all: [Section; 70],
}

impl Sections {
    /// The sections of a plan: each key has that of its owner, and parts lie in the table by rising
    /// key, none over another and nothing between them.
    pub fn of(plan: &Plan) -> Sections
        ensures groups { (g : ℕ) (none : Kept) → g < length (view plan.now).masks →
            slice_index_or result.all g none ≡ section_of (view plan.now) g }
        ensures others { (g : ℕ) (none : Kept) → length (view plan.now).masks ≤ g → g < 70 →
            slice_index_or result.all g none ≡ unused }
        ensures owners { let p = view plan.now in
            (key : ℕ) → find result.all key ≡ option_map (section_of p) (owner p key) }
        ensures places { Places (view plan.now) }
    {
        let mut all = [Section::default(); 70];
        let mut start = 0;
        for group in plan.iter() {
            let rows = part_rows(plan.height(), plan.width(), &group);
            all[group.number] = Section {
                first: group.first,
                count: group.count,
                rows: rows as u16,
                start,
            };
            start += group.count * rows as u32;
        }
        Sections { all }
    }

    /// The section that has a key, or none.
    pub fn find(&self, key: u32) -> Option<Section>
        ensures { result ≡ find self.now.all key }
    {
        self.all.iter().find(|section| section.has(key)).copied()
    }
}
