//! The rows of a key's part of the public table, and where each part lies in the table.
#![tactic(auto)]

mod part;
mod places;
mod section;
mod sections;

pub use part::{part_rows, table_rows};
pub use places::part_range;
pub use section::Section;
pub use sections::Sections;
