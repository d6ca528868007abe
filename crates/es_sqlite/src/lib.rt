//! Recorders over the kit's SQL database: each keeps the recordings and snapshots of one application
//! in tables that other programs can read.
//!
//! A recorder doesn't tell what it holds. It answers by the clauses that hold of such a one: what
//! it counts as a fault, that its numbers are small and in order, and that what it adds is
//! committed at once or not at all. The tables are told in `docs/STORES.md`.
#![tactic(auto)]

mod layout;
mod reading;
mod recorder;
mod refusing;
mod statements;
mod stop;
mod values;
mod writing;

pub use recorder::SqliteRecorder;
