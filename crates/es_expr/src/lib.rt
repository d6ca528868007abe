//! The kinds and the values of expressions, and which systems are checked.
//!
//! The definitions that contracts cite are in `specs/`: the shapes of expressions, what each operator
//! and each expression means over unbounded whole numbers and lists, their kinds and first faults, and
//! when an expression may be evaluated; the names that expressions see at each place of a declaration,
//! what doesn't fit together in a system, and the limits of a checked one.
#![tactic(auto)]

mod checked;
mod checking;
mod environments;
mod evaluation;
mod fault;
mod fitting;
mod kinds;
mod limits;
mod misfit;
mod operators;
mod shape;
mod walk;

pub use checked::is_checked;
pub use checking::check;
pub use environments::{assign_env, command_env, created_env, creating_env, rule_env};
pub use evaluation::{eval, test};
pub use fault::{EvalFault, ExprFault};
pub use fitting::fit;
pub use misfit::Misfit;
pub use walk::first_misfit;
