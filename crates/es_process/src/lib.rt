//! Applications: what one makes of a command and of a leader's notification, and how followers are drained.
//!
//! The definitions that contracts cite are in `specs/`: the rules of a declared system, the run on one thread, what it
//! means that histories follow their openings, are consistent and reached, and that replies are a session over them.
#![tactic(auto)]

mod ahead;
mod application;
mod draining;
mod faults;
mod pairs;
mod questions;

pub use ahead::{Ahead, find_ahead};
pub use application::{Application, Processed, convert};
pub use draining::{drain, drain_with, place_of, places_of};
pub use faults::RunFault;
pub use pairs::{Pair, placed_pairs};
