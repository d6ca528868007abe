//! Sections of an application's notification log.
//!
//! A text asks for the notifications from one id to another, as `1,10`, and is answered by those of them that
//! fit a section, with what to ask for next. The definitions that contracts cite are in `specs/`: what
//! a text asks for, what a section has, and that all sections one after the other have the whole log.
#![tactic(auto)]

mod answer;
mod request;
mod sections;

pub use answer::{Section, SectionFault};
pub use sections::section;
