//! Helpers: they lend rows of the public table while a signature is put together.
#![tactic(auto)]

mod cache;
mod choice;
mod entry;
mod interface;
mod pair;
mod part;
mod refusal;
mod table;

pub use cache::Cache;
pub use interface::Helper;
pub use pair::Pair;
pub use refusal::Refusal;
pub use table::Table;
