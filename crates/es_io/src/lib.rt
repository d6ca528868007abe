//! Where bytes come from and go to, the clock, and the lines of a source.
//!
//! Each trait says by ghost members what an object holds and how often it has failed, and by clauses
//! what a call answers, when it may fail, and what it leaves. The objects in memory tell what they
//! hold; the adapters over the real streams and the system's clock tell nothing and are trusted.
#![tactic(auto)]

mod adapters;
mod lines;
mod memory;
mod outside;

pub use adapters::{FileDocument, StdSink, StdSource, SystemClock};
pub use lines::{Lines, LinesFault, Piece, Step};
pub use memory::{Documents, ListClock, MemoryDocument, MemorySink, MemorySource};
pub use outside::{Clock, Document, Sink, Source, write_all};
