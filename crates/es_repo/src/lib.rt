//! The aggregates that a recorder keeps, and what an application decides over it.
//!
//! An aggregate is read by folding the events of its id, all of them or those up to a version. The definitions
//! that contracts cite are in `specs/`: what is read of each aggregate of a log, what a repository answers,
//! what a snapshot holds and when one is due, and what a command and a policy decide over a history.
#![tactic(auto)]

mod folding;
mod judge;
mod reader;
mod repository;
mod snapshots;
mod verdict;

pub use judge::{judge_command, judge_policy};
pub use repository::{RepoFault, Repository};
pub use snapshots::{is_kept, snapshot, snapshot_due};
pub use verdict::Verdict;
