//! A plan: which groups of trustees may sign, and which one-time keys each group owns.
#![tactic(auto)]

mod group;
mod groups;
mod keys;
mod lookup;
mod making;
mod members;
mod parts;
mod plans;

pub use group::Group;
pub use groups::Groups;
pub use members::Members;
pub use plans::Plan;
