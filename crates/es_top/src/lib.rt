//! The top call: words, the system that they ask for, the run on one thread over the stores, and its end.
#![tactic(auto)]

mod ending;
mod loading;
mod opening;
mod running;
mod serve;
mod status;
mod top;
mod words;

pub use status::Status;
pub use top::evsys_single;
