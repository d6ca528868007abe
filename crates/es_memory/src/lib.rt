//! Recorders in memory, and the stores of all applications in memory.
//!
//! They tell all that they hold. A recorder in memory never fails, its stores fail only where they
//! are asked to, and a fuse lets a recorder fail from one of its calls on.
#![tactic(auto)]

mod content;
mod cuts;
mod fuse;
mod history;
mod index;
mod lookups;
mod memory;
mod memory_stores;
mod selections;
mod snapshots;
mod walks;

pub use content::{Content, Contents, are_formed};
pub use fuse::FuseRecorder;
pub use history::is_formed;
pub use memory::MemoryRecorder;
pub use memory_stores::MemoryStores;
