//! What the programs of cases share: the members that a case gives, the answer that is told, and the run
//! over the lines of a file.
#![tactic(auto)]

mod files;
pub mod given;
pub mod told;

pub use files::{Suite, run};
