//! What the programs of cases over recorders share: recordings as a case gives them and as they are told, and the
//! steps that any recorder answers.
#![tactic(auto)]

pub mod recordings;
pub mod steps;
