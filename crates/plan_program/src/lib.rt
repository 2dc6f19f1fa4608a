//! What the program `ringplan` does, over any reader and any writers: what its arguments ask for,
//! what it reads and writes, and the status that it ends with.
#![tactic(auto)]

mod outcome;
mod program;
mod request;
mod streams;

pub use outcome::Outcome;
pub use program::run;
pub use request::Request;
