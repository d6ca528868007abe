//! The world: all histories at once, and what deliveries, lines and stops in any order make of them.
//!
//! The definitions are in `specs/`: what a step makes of a world and what it answers, and the laws of worlds, of
//! ranks, of joins and of images. The proofs of the laws are in `proofs/`.
#![tactic(auto)]

mod lending;
mod outcomes;
mod places;
mod requests;
mod stepping;
mod steps;
mod stopping;
mod world;

pub use steps::{AppHistory, Histories, StepAnswer, WorldStep};
pub use world::World;
