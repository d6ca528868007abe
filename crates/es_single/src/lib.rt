//! The run on one thread over opened applications: a runner drains all leaders, answers what a line asks, and drains after
//! an accepted command.
//!
//! The definitions that contracts cite are in `specs/`: what a runner has, and what its calls leave.
#![tactic(auto)]

mod runner;

pub use runner::SingleRunner;
