//! Recorders, which keep the recordings of one application, and stores of recorders.
//!
//! The traits say by ghost members what a recorder holds, where it tells it: its history, the part
//! of it that a stop surely leaves, its snapshots, its capacity, how many events it has handed out
//! and how often it has failed. Each clause of a call says which answer comes when, and what
//! changes. What a stop may leave of a recorder's content is defined in `specs/`.
#![tactic(auto)]

mod recorder;
mod stores;

pub use recorder::{
    AggregateRecorder, ApplicationRecorder, InsertFault, Inserted, ProcessRecorder,
};
pub use stores::Stores;
