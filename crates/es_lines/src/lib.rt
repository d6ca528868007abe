//! Lines read as requests, the canonical text of a command, and the texts of replies and of the end line.
//!
//! The definitions that contracts cite are in `specs/`: what a line asks of a system, which is a request or
//! the reason why it is none; the canonical text; and the tree of each reply and end, whose compact text it is.
#![tactic(auto)]

mod aggregates;
mod ends;
mod fault;
mod objects;
mod reading;
mod replies;
mod request;
mod sections;
mod writing;

pub use ends::{End, end_text, fixed_end_line};
pub use fault::LineFault;
pub use reading::read_line;
pub use replies::{Reply, reply_text};
pub use request::Request;
pub use writing::command_text;
