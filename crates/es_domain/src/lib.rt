//! Aggregates, which their events make, and the decisions of commands and policies.
//!
//! The definitions that contracts cite are in `specs/`: the fold of an aggregate's events, what is read
//! of an aggregate, what a command and a policy decide, and what a reader of aggregates has told.
#![tactic(auto)]

mod aggregate;
mod command;
mod decide;
mod effect;
mod environment;
mod find;
mod fold;
mod policy;
mod rules;
mod values;

pub use aggregate::{Aggregate, ApplyFault, TriggerFault};
pub use command::{Command, Decision};
pub use decide::{decide_command, decide_policy};
pub use find::{Aggregates, FindFault};
