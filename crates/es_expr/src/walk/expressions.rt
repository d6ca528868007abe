//! The faults of expressions and of objects of expressions.
ghost use Rattle.std.specs.Prelude.{◌≡◌, is_some, None, Some};
ghost use Rattle.std.specs.Option.{option_copied};
ghost use Rattle.es_model.specs.Rising.{item_of};
ghost use Rattle.es_expr.specs.Kinds.{kind_of};
ghost use Rattle.es_expr.specs.inner.Walks.{Finds};
ghost use Rattle.es_expr.specs.Misfits.{judged, member, member_misfits, some_misfits, all_misfits, has_all};

use crate::kinds::is_same;
use crate::misfit::Halt;
use crate::walk::paths::{halt, halt_unless, member_path};
use crate::{ExprFault, check};
use es_model::{Assigns, Code, Expr, Kind, Kinds, Text};
use std::alloc::Global;

// An expression, in itself and then against the kind that its place wants.
pub(crate) fn expression(
    alloc: Global,
    wanted: Kind,
    env: &Kinds,
    path: &str,
    expr: &Expr,
) -> Result<(), Halt>
    ensures { Finds (judged wanted path.now (kind_of expr.now env.now)) result }
{
    match check(alloc, expr, env) {
        Ok(kind) => halt_unless(alloc, is_same(wanted, kind), Code::Kind, path, ""),
        Err(ExprFault::Unknown { path: rest }) => halt(alloc, Code::Unknown, path, rest.as_str()),
        Err(ExprFault::Kind { path: rest }) => halt(alloc, Code::Kind, path, rest.as_str()),
        Err(ExprFault::NoMemory) => Err(Halt::NoMemory),
    }
}

// A member of an object of expressions, by the kind that is wanted of its name.
fn member_of(
    alloc: Global,
    wanted: Option<&Kind>,
    env: &Kinds,
    path: &str,
    expr: &Expr,
) -> Result<(), Halt>
    ensures { Finds (member_misfits path.now (option_copied wanted.entry) (kind_of expr.now env.now)) result }
{
    match wanted {
        Some(kind) => expression(alloc, *kind, env, path, expr),
        None => halt(alloc, Code::Unknown, path, ""),
    }
}

fn named_member(
    alloc: Global,
    wanted: &Kinds,
    env: &Kinds,
    path: &str,
    entry: &(Text, Expr),
) -> Result<(), Halt>
    ensures { Finds (member_misfits (member path.now entry.now.0) (item_of wanted.now entry.now.0) (kind_of entry.now.1 env.now)) result }
{
    let path = member_path(alloc, path, entry.0.as_str())?;
    member_of(
        alloc,
        wanted.get(entry.0.as_str()),
        env,
        path.as_str(),
        &entry.1,
    )
}

// The members of an object of expressions, which has some of the wanted ones.
#[tactic(auto, using(crate::proofs::FindsLemmas::stops))]
pub(crate) fn some_members(
    alloc: Global,
    wanted: &Kinds,
    env: &Kinds,
    path: &str,
    members: &[(Text, Expr)],
) -> Result<(), Halt>
    ensures { Finds (some_misfits wanted.now env.now path.now members.now) result }
{
    match members {
        [] => Ok(()),
        [entry, rest @ ..] => {
            named_member(alloc, wanted, env, path, entry)?;
            some_members(alloc, wanted, env, path, rest)
        }
    }
}

fn is_there(members: &Assigns, name: &Text) -> bool
    ensures { result ≡ is_some (item_of members.now name.now) }
{
    members.get(name.as_str()).is_some()
}

fn are_all_there(wanted: &[(Text, Kind)], members: &Assigns) -> bool
    ensures { result ≡ has_all wanted.now members.now }
{
    wanted.iter().all(|entry| is_there(members, &entry.0))
}

// An object of expressions, which has all of the wanted members.
pub(crate) fn all_members(
    alloc: Global,
    wanted: &Kinds,
    env: &Kinds,
    path: &str,
    members: &Assigns,
) -> Result<(), Halt>
    ensures { Finds (all_misfits wanted.now env.now path.now members.now) result }
{
    let is_whole = are_all_there(wanted.as_slice(), members);
    halt_unless(alloc, is_whole, Code::Fields, path, "")?;
    some_members(alloc, wanted, env, path, members.as_slice())
}
