//! Stored events and the domain events that they stand for.
//!
//! A stored event's state is the text of a record: the event's fields, its moment, the class of a
//! created aggregate, and the class version. An old state is read by the upcasts of its event.
//! The definitions that contracts cite are in `specs/`: edits as substitutions on a record, and how
//! stored and domain events stand for each other.
#![tactic(auto)]

mod domain;
mod edits;
mod fault;
mod head;
mod stored;

pub use domain::to_domain;
pub use edits::upcast;
pub use fault::MapFault;
pub use stored::to_stored;
