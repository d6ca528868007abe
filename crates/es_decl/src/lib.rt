//! The declaration document, read into a system.
//!
//! The definitions that contracts cite are in `specs/`: what each object of the document is read as, which
//! is a value or its first fault with the place in the document, and the pairs of leaders and followers.
#![tactic(auto)]

mod apps;
mod builtin;
mod classes;
mod document;
mod edits;
mod expressions;
mod fault;
mod kinds;
mod literals;
mod names;
mod objects;
mod parts;
mod pipes;
mod words;

pub use builtin::{SAMPLE, sample};
pub use document::read_system;
pub use expressions::read_expr;
pub use fault::DeclFault;
pub use pipes::{Pairs, followers, followers_of, leaders, leaders_only, pairs, processors};
