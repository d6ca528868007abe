//! The data of event-sourced systems: names, moments, values, stored and domain events, recordings
//! with their cause, declarations with their expressions, and the small collections that hold them.
//!
//! A contract sees a text or bytes as a list of numbers, a collection as the list of its items, and
//! an event or a recording as the record of its fields. The definitions that contracts cite are in
//! `specs/`: values and their kinds, how names are spelled, the words of operators, names in rising order, when a call to the outside may fail,
//! histories, tracking, and the lines of an input.
#![tactic(auto)]

mod boxed;
mod bytes;
mod declaration;
mod domain_event;
mod event;
mod expr;
mod faults;
pub mod limits;
mod list;
mod lookup;
mod memory;
mod moment;
pub mod names;
pub mod operators;
mod rising;
mod snapshot;
mod value;

pub use boxed::Boxed;
pub use bytes::{Bytes, Text};
pub use declaration::{
    App, Apps, Assigns, Class, Classes, Code, CommandDef, CommandDefs, Edit, EventClass,
    EventClasses, Guard, Guards, Kinds, Names, Otherwise, Pipes, Rule, Rules, System, Trigger,
    Triggers, Upcasts,
};
pub use domain_event::DomainEvent;
pub use event::{Cause, Notification, Recording, StoredEvent};
pub use expr::Expr;
pub use faults::Faults;
pub use list::List;
pub use memory::{CallFault, Duplicate, Failed, NoMemory};
pub use moment::Moment;
pub use rising::Rising;
pub use snapshot::{Snapshot, Snapshots};
pub use value::{Atom, AtomKind, Decimal, Kind, Value, are_of_kinds, fits};

/// The items of a list value.
pub type Atoms = List<Atom>;

/// Names with their values.
pub type Fields = Rising<Value>;

/// Names with numbers.
pub type Counts = Rising<u64>;

/// Domain events in the order of their versions.
pub type DomainEvents = List<DomainEvent>;

/// Events in the order of their recording.
pub type StoredEvents = List<StoredEvent>;

/// Notifications in the order of their ids.
pub type Notifications = List<Notification>;

/// The history of one application.
pub type Recordings = List<Recording>;

/// Readings that a clock is to give.
pub type Moments = List<Moment>;

/// Numbers of calls, counted from 1: those that an object in memory lets fail.
pub type Calls = List<u64>;
