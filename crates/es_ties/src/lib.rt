//! Logs that only grow, each with one writer, whose readers tell each other by notes what they have
//! seen, without a lock.
//!
//! The lists are for contracts alone: nothing of them is stored or copied when the program runs, so
//! an item may be of any type that contracts see as plain data. What a pen, a reader or a note has
//! seen of a log is a prefix of what the log's pen has seen of it. After `Ties::new` no call takes
//! memory or is refused. Each pen, reader and note belongs to the ties that it was made from.
#![tactic(auto)]

mod examples;
mod making;
mod pen;
mod reader;
mod seats;
mod settling;
mod steps;
mod ties;
mod view;

pub use pen::Pen;
pub use reader::{Note, Reader};
pub use settling::settle;
pub use ties::{Logged, Numbers, Ties};

#[cfg(test)]
mod tests;
